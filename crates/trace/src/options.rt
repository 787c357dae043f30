//! How a trace is to be read: what of a real controller's completions isn't judged, and whether what its blocks held is
//! known.

ghost use Rattle.std.specs.Prelude.{◌≡◌};
ghost use Rattle.nvme_model.specs.EntryBytes.{cqe_fields};
ghost use Rattle.trace.specs.Options.{does_nothing, no_options};
ghost use Rattle.trace.specs.Options.{read_completion as the_read_completion, refused as the_refused};
ghost use Rattle.trace.specs.Options.{with_one_status, without_crd, without_dnr, without_dw0, without_dw1};
ghost use Rattle.trace.specs.Options.{without_more, without_sqhd};

/// The fields of a completion that aren't compared.
#[derive(Clone, Copy, Debug, PartialEq, Eq)]
pub struct IgnoredFields {
    pub dnr: bool,
    pub more: bool,
    pub crd: bool,
    pub dw0: bool,
    pub dw1: bool,
    pub sqhd: bool,
}

/// How a trace is to be read.
#[derive(Clone, Copy, Debug, PartialEq, Eq)]
pub struct TraceOptions {
    /// The first answer about a block fixes what it held.
    pub contents_unknown: bool,
    /// Any status but success and Compare Failure says that the command did nothing.
    pub statuses_any: bool,
    pub ignored: IgnoredFields,
}

impl TraceOptions {
    /// Those of a trace whose head has no option.
    pub fn none() -> TraceOptions
        ensures value { result ≡ no_options }
    {
        TraceOptions {
            contents_unknown: false,
            statuses_any: false,
            ignored: IgnoredFields {
                dnr: false,
                more: false,
                crd: false,
                dw0: false,
                dw1: false,
                sqhd: false,
            },
        }
    }
}

/// Whether a completion has a status other than success and Compare Failure.
pub fn did_nothing(cqe: &[u8; 16]) -> bool
    ensures value { result ≡ does_nothing (cqe_fields cqe.now) }
{
    let word = u16::from(cqe[14]) + 256 * u16::from(cqe[15]);
    let code = word / 2 % 256;
    let kind = word / 512 % 8;
    !(code == 0 && kind == 0) && !(code == 133 && kind == 2)
}

fn one_status(any: bool, cqe: [u8; 16]) -> [u8; 16]
    ensures value { result ≡ with_one_status any cqe }
{
    let mut bytes = cqe;
    if any && did_nothing(&bytes) {
        bytes[14] = bytes[14] % 2 + 2;
        bytes[15] = bytes[15] / 16 * 16;
    }
    bytes
}

fn no_dnr(ignored: bool, cqe: [u8; 16]) -> [u8; 16]
    ensures value { result ≡ without_dnr ignored cqe }
{
    let mut bytes = cqe;
    if ignored {
        bytes[15] %= 128;
    }
    bytes
}

fn no_more(ignored: bool, cqe: [u8; 16]) -> [u8; 16]
    ensures value { result ≡ without_more ignored cqe }
{
    let mut bytes = cqe;
    if ignored {
        bytes[15] = bytes[15] / 128 * 128 + bytes[15] % 64;
    }
    bytes
}

fn no_crd(ignored: bool, cqe: [u8; 16]) -> [u8; 16]
    ensures value { result ≡ without_crd ignored cqe }
{
    let mut bytes = cqe;
    if ignored {
        bytes[15] = bytes[15] / 64 * 64 + bytes[15] % 16;
    }
    bytes
}

fn no_dw0(ignored: bool, cqe: [u8; 16]) -> [u8; 16]
    ensures value { result ≡ without_dw0 ignored cqe }
{
    let mut bytes = cqe;
    if ignored {
        bytes[0] = 0;
        bytes[1] = 0;
        bytes[2] = 0;
        bytes[3] = 0;
    }
    bytes
}

fn no_dw1(ignored: bool, cqe: [u8; 16]) -> [u8; 16]
    ensures value { result ≡ without_dw1 ignored cqe }
{
    let mut bytes = cqe;
    if ignored {
        bytes[4] = 0;
        bytes[5] = 0;
        bytes[6] = 0;
        bytes[7] = 0;
    }
    bytes
}

fn no_sqhd(ignored: bool, cqe: [u8; 16]) -> [u8; 16]
    ensures value { result ≡ without_sqhd ignored cqe }
{
    let mut bytes = cqe;
    if ignored {
        bytes[8] = 0;
        bytes[9] = 0;
    }
    bytes
}

/// The bytes of a completion as these options read it: what is ignored is zero, and where any status will do, all
/// statuses that say that nothing was done are one.
pub fn read_completion(options: &TraceOptions, cqe: &[u8; 16]) -> [u8; 16]
    ensures value { result ≡ the_read_completion options.now cqe.now }
{
    let ignored = options.ignored;
    let bytes = one_status(options.statuses_any, *cqe);
    let bytes = no_crd(
        ignored.crd,
        no_more(ignored.more, no_dnr(ignored.dnr, bytes)),
    );
    no_sqhd(
        ignored.sqhd,
        no_dw1(ignored.dw1, no_dw0(ignored.dw0, bytes)),
    )
}

/// The bytes of an entry that a history has in place of one that was refused: those of namespace 0.
pub fn refused(entry: &[u8; 64]) -> [u8; 64]
    ensures value { result ≡ the_refused entry.now }
{
    let mut bytes = *entry;
    bytes[4] = 0;
    bytes[5] = 0;
    bytes[6] = 0;
    bytes[7] = 0;
    bytes
}

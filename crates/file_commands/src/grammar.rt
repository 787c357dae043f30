//! Which lines there are, and what their words have to be, one after the other.

use crate::form::Form;

/// Which line a text has to be.
#[derive(Clone, Copy, Debug, PartialEq, Eq)]
pub enum Grammar {
    /// The first line of any file.
    Configuration,
    /// A line of a script behind its first.
    Script,
    /// A line of a history behind its first.
    History,
    /// A line of a trace behind its first.
    Trace,
    /// A line that is told in words, behind the first of a history, of what a run prints, or of a trace.
    Told,
    /// The first line of a refutation.
    RefutationHead,
    /// The second line of a refutation.
    RefutedLines,
    /// A line of a refutation behind its second.
    Slice,
}

static CONFIGURATION: [Form; 1] = [Form::Configuration];

static KIND: [Form; 1] = [Form::Kind];

static HEAD: [Form; 1] = [Form::Refutation];

static LINES: [Form; 1] = [Form::Lines];

static PART: [Form; 1] = [Form::Part];

// The numbers of a configuration line; one with as many completion queues as pairs leaves out the last.
static CONFIG_NUMBERS: [Form; 10] = [
    Form::Number32,
    Form::Number16,
    Form::Number16,
    Form::Number16,
    Form::Number16,
    Form::Number16,
    Form::Number16,
    Form::Number16,
    Form::Number16,
    Form::Number16,
];

static NUMBER_16: [Form; 1] = [Form::Number16];

static NUMBER_64: [Form; 1] = [Form::Number64];

static COMMAND_PLACE: [Form; 2] = [Form::Number16, Form::Number64];

static REFUSAL: [Form; 1] = [Form::Refusal];

static MEDIUM: [Form; 2] = [Form::Number64, Form::Medium];

static REAP_TOLD: [Form; 3] = [Form::Number16, Form::Completion, Form::MoreData];

static NAMED_BATCH: [Form; 2] = [Form::Number16, Form::Name];

static NAMED: [Form; 1] = [Form::Name];

static RAW: [Form; 3] = [Form::Entry, Form::Data, Form::More];

static COMMAND: [Form; 6] = [
    Form::Fuse,
    Form::Number16,
    Form::Number64,
    Form::Number16,
    Form::Data,
    Form::More,
];

static BATCH: [Form; 4] = [Form::Number16, Form::Entry, Form::Data, Form::More];

static FETCH: [Form; 3] = [Form::Number16, Form::Number64, Form::Count];

static VERDICT: [Form; 1] = [Form::Verdict];

static PAIR_VERDICT: [Form; 1] = [Form::PairVerdict];

static STATUS: [Form; 1] = [Form::Status];

static GRANT: [Form; 5] = [
    Form::Number64,
    Form::Number64,
    Form::Number64,
    Form::Number16,
    Form::Mode,
];

static BLOCK: [Form; 5] = [
    Form::Number64,
    Form::Number64,
    Form::Number64,
    Form::Found,
    Form::Mark,
];

static POST: [Form; 3] = [Form::Number64, Form::Completion, Form::Data];

static REAP: [Form; 2] = [Form::Number16, Form::Completion];

static REAP_WITH_DATA: [Form; 3] = [Form::Number16, Form::Completion, Form::Data];

static OPTION: [Form; 1] = [Form::Topic];

static UNKNOWN: [Form; 1] = [Form::Unknown];

static ANY: [Form; 1] = [Form::Any];

static FIELDS: [Form; 2] = [Form::Field, Form::MoreFields];

static MORE_FIELDS: [Form; 1] = [Form::MoreFields];

static NOTHING: [Form; 0] = [];

// What follows a kind of lines of a script.
fn behind_script_kind(word: &[u8]) -> Option<&'static [Form]> {
    if word == b"publish".as_slice() {
        return Some(&NAMED_BATCH);
    }
    if word == b"fetch".as_slice() || word == b"reap".as_slice() {
        return Some(&NUMBER_16);
    }
    if word == b"settle".as_slice() {
        return Some(&NOTHING);
    }
    if word == b"grant".as_slice()
        || word == b"block".as_slice()
        || word == b"post".as_slice()
        || word == b"medium".as_slice()
    {
        return Some(&NUMBER_64);
    }
    None
}

// What follows a kind of lines of a history.
fn behind_history_kind(word: &[u8]) -> Option<&'static [Form]> {
    if word == b"publish".as_slice() {
        return Some(&BATCH);
    }
    if word == b"fetch".as_slice() {
        return Some(&FETCH);
    }
    if word == b"grant".as_slice() {
        return Some(&GRANT);
    }
    if word == b"block".as_slice() {
        return Some(&BLOCK);
    }
    if word == b"post".as_slice() {
        return Some(&POST);
    }
    if word == b"reap".as_slice() {
        return Some(&REAP);
    }
    None
}

// What follows a kind of lines of a trace.
fn behind_trace_kind(word: &[u8]) -> Option<&'static [Form]> {
    if word == b"publish".as_slice() {
        return Some(&BATCH);
    }
    if word == b"reap".as_slice() {
        return Some(&REAP_WITH_DATA);
    }
    if word == b"observe".as_slice() {
        return Some(&OPTION);
    }
    None
}

// What follows a kind of lines that are told.
fn behind_told_kind(word: &[u8]) -> Option<&'static [Form]> {
    if word == b"refused".as_slice() {
        return Some(&REFUSAL);
    }
    if word == b"medium".as_slice() {
        return Some(&MEDIUM);
    }
    if word == b"reap".as_slice() {
        return Some(&REAP_TOLD);
    }
    behind_history_kind(word)
}

// What follows the first word of a line of a refutation's slice.
fn behind_part(word: &[u8]) -> Option<&'static [Form]> {
    if word == b"block".as_slice() {
        return Some(&NUMBER_64);
    }
    if word == b"command".as_slice() {
        return Some(&COMMAND_PLACE);
    }
    None
}

// What follows the one word that a line begins with.
fn behind_one(one: &[u8], forms: &'static [Form], word: &[u8]) -> Option<&'static [Form]> {
    if word == one { Some(forms) } else { None }
}

// What follows the first word of a configuration line.
fn behind_configuration(word: &[u8]) -> Option<&'static [Form]> {
    if word == b"config".as_slice() {
        return Some(&CONFIG_NUMBERS[..9]);
    }
    if word == b"config2".as_slice() {
        return Some(&CONFIG_NUMBERS);
    }
    None
}

/// What the first word of a line has to be.
pub(crate) fn first_form(grammar: Grammar) -> &'static [Form] {
    match grammar {
        Grammar::Configuration => &CONFIGURATION,
        Grammar::Script | Grammar::History | Grammar::Trace | Grammar::Told => &KIND,
        Grammar::RefutationHead => &HEAD,
        Grammar::RefutedLines => &LINES,
        Grammar::Slice => &PART,
    }
}

/// What follows the first word of a line; None where no line begins so.
pub(crate) fn behind_first(grammar: Grammar, word: &[u8]) -> Option<&'static [Form]> {
    match grammar {
        Grammar::Configuration => behind_configuration(word),
        Grammar::Script => behind_script_kind(word),
        Grammar::History => behind_history_kind(word),
        Grammar::Trace => behind_trace_kind(word),
        Grammar::Told => behind_told_kind(word),
        Grammar::RefutationHead => behind_one(b"refutation", &NOTHING, word),
        Grammar::RefutedLines => behind_one(b"lines", &NUMBER_64, word),
        Grammar::Slice => behind_part(word),
    }
}

// What follows what a line of a trace's head is about.
fn behind_topic(word: &[u8]) -> &'static [Form] {
    if word == b"contents".as_slice() {
        return &UNKNOWN;
    }
    if word == b"statuses".as_slice() {
        return &ANY;
    }
    &FIELDS
}

// What follows the name of a command.
fn behind_name(word: &[u8]) -> &'static [Form] {
    if word == b"raw".as_slice() {
        return &RAW;
    }
    &COMMAND
}

// What follows the word between two entries of a batch.
fn behind_more(grammar: Grammar) -> &'static [Form] {
    match grammar {
        Grammar::Script => &NAMED,
        Grammar::Configuration
        | Grammar::History
        | Grammar::Trace
        | Grammar::Told
        | Grammar::RefutationHead
        | Grammar::RefutedLines
        | Grammar::Slice => &RAW,
    }
}

// What follows how many commands were fetched.
fn behind_count(word: &[u8]) -> &'static [Form] {
    if word == b"1".as_slice() {
        return &VERDICT;
    }
    &PAIR_VERDICT
}

// What follows how a pair was judged.
fn behind_pair_verdict(word: &[u8]) -> &'static [Form] {
    if word == b"ok".as_slice() {
        return &NOTHING;
    }
    &STATUS
}

/// What follows a word of this form, where `others` would.
pub(crate) fn behind_word(
    grammar: Grammar,
    form: Form,
    word: &[u8],
    others: &'static [Form],
) -> &'static [Form] {
    match form {
        Form::Name => behind_name(word),
        Form::More => behind_more(grammar),
        Form::Count => behind_count(word),
        Form::PairVerdict => behind_pair_verdict(word),
        Form::Topic => behind_topic(word),
        Form::MoreFields => &MORE_FIELDS,
        Form::Configuration
        | Form::Kind
        | Form::Number16
        | Form::Number32
        | Form::Number64
        | Form::Entry
        | Form::Completion
        | Form::Data
        | Form::Fuse
        | Form::Verdict
        | Form::Status
        | Form::Mode
        | Form::Found
        | Form::Mark
        | Form::Unknown
        | Form::Any
        | Form::Field
        | Form::Refutation
        | Form::Lines
        | Form::Part
        | Form::Refusal
        | Form::Medium
        | Form::MoreData => others,
    }
}

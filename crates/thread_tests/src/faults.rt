//! A race whose output fails.

use race::{RaceFault, run_race};
use race_numbers::Race;
use std::io;
use std::io::{ErrorKind, Write};
use std::test::Fail;

/// Takes at most 100 bytes at each call, and fails at one.
#[derive(Drop)]
struct Narrow {
    taken: u64,
    calls: u64,
    fails_at: u64,
}

impl Write for Narrow {
    ghost use Rattle.std.specs.Prelude.{None};

    ghost contents = { λ _. None };

    fn write(&mut self, buf: &[u8]) -> io::Result<usize> {
        self.calls = self.calls.saturating_add(1);
        if self.calls == self.fails_at {
            return Err(io::Error::from(ErrorKind::Other));
        }
        let count = buf.len().min(100);
        self.taken = self.taken.saturating_add(count as u64);
        Ok(count)
    }

    fn flush(&mut self) -> io::Result<()> {
        Ok(())
    }
}

#[test]
fn a_failed_write_ends_the_race(rt: HostRuntime) -> Result<(), Fail> {
    let Ok(race) = Race::new(2, 1, 1, 1, 1) else {
        return Err(Fail::from("no race"));
    };
    for fails_at in 1..9 {
        let mut writer = Narrow {
            taken: 0,
            calls: 0,
            fails_at,
        };
        let answer = run_race(&rt, rt.alloc(), &race, &mut writer);
        assert_eq!(rt; answer, Err(RaceFault::Output), "at {fails_at}");
        assert_eq!(rt; writer.calls, fails_at);
        assert!(rt; writer.taken <= fails_at.saturating_mul(100));
    }
    Ok(())
}

#[test]
fn faults_have_their_words_and_statuses(rt: HostRuntime) -> Result<(), Fail> {
    let rows = [
        (RaceFault::BadAt(7), "bad at 7", 1),
        (RaceFault::Forgotten, "history forgotten", 1),
        (RaceFault::Output, "output failed", 3),
        (RaceFault::NoMemory, "no memory", 4),
    ];
    for (fault, words, status) in rows {
        let text = fault.to_string(rt.alloc())?;
        assert_eq!(rt; text.as_str(), words);
        assert_eq!(rt; fault.status(), status);
    }
    Ok(())
}

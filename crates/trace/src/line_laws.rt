//! The laws of the lines of a trace: each is the contract of a function that does nothing.

ghost use Rattle.std.specs.Prelude.{◌≡◌, ℕ, List, Some};
ghost use Rattle.trace.specs.OptionLines.{option_in, option_line};
ghost use Rattle.trace.specs.declared.option_lines.TraceOption.{TraceOption};
ghost use Rattle.trace.specs.declared.seen.Seen.{Seen};
ghost use Rattle.trace.specs.SeenLines.{HasSeenLine, seen_in, seen_line};

/// A thing that was seen has one line, and each line one of them.
pub fn seen_lines_have_one_spelling()
    ensures read_back { (s : Seen) → HasSeenLine s → seen_in (seen_line s) ≡ Some s }
    ensures one_seen { (s t : Seen) → HasSeenLine s → HasSeenLine t → seen_line s ≡ seen_line t → s ≡ t }
    ensures written_back { (line : List ℕ) (s : Seen) → seen_in line ≡ Some s → seen_line s ≡ line }
{}

/// A line that says an option is the only one that says it.
pub fn option_lines_have_one_spelling()
    ensures { (line : List ℕ) (o : TraceOption) → option_in line ≡ Some o → option_line o ≡ line }
{}

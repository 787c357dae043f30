//! The laws of lines: each is the contract of a function that does nothing.

ghost use Rattle.std.specs.Prelude.{◌≡◌, ℕ, List, Some};
ghost use Rattle.nvme_model.specs.declared.config.ConfigNumbers.{ConfigNumbers};
ghost use Rattle.nvme_model.specs.declared.entry.Entry.{Entry};
ghost use Rattle.history.specs.ConfigLine.{HasConfigLine, config_in, config_line};
ghost use Rattle.history.specs.Lines.{HasLine, entry_in, entry_line};

/// An entry has one line, and each line one entry.
pub fn lines_have_one_spelling()
    ensures read_back { (e : Entry) → HasLine e → entry_in (entry_line e) ≡ Some e }
    ensures one_entry { (a b : Entry) → HasLine a → HasLine b → entry_line a ≡ entry_line b → a ≡ b }
    ensures written_back { (line : List ℕ) (e : Entry) → entry_in line ≡ Some e → entry_line e ≡ line }
{}

/// The numbers of a configuration have one line, and each line one configuration.
pub fn configurations_have_one_spelling()
    ensures read_back { (c : ConfigNumbers) → HasConfigLine c → config_in (config_line c) ≡ Some c }
    ensures one_configuration { (a b : ConfigNumbers) →
        HasConfigLine a → HasConfigLine b → config_line a ≡ config_line b → a ≡ b }
    ensures written_back { (line : List ℕ) (c : ConfigNumbers) → config_in line ≡ Some c → config_line c ≡ line }
{}

//! What is known of a race's text, as the contract of a function that does nothing.

ghost use Rattle.std.specs.Prelude.{◌≡◌, All, Bool, [], List, None, Option, Result, Some, reverse, true, ℕ};
ghost use Rattle.line_text.specs.Lines.{whole_lines};
ghost use Rattle.nvme_model.specs.Config.{config_fault};
ghost use Rattle.nvme_model.specs.History.{Past};
ghost use Rattle.nvme_model.specs.Legal.{IsLegal};
ghost use Rattle.nvme_model.specs.declared.config.ConfigNumbers.{ConfigNumbers};
ghost use Rattle.nvme_model.specs.declared.entry.Entry.{Entry};
ghost use Rattle.history.specs.ConfigLine.{HasConfigLine};
ghost use Rattle.history.specs.Lines.{HasLine};
ghost use Rattle.race_numbers.specs.Races.{race_config};
ghost use Rattle.race.specs.Races.{PrintsLegal};
ghost use Rattle.history.specs.Texts.{history_text};
ghost use Rattle.casdisk_texts.specs.Files.{ChecksText, IsAnswerOf, file_of, legal_text};
ghost use Rattle.casdisk_texts.specs.Script.{done, first_config};
ghost use Rattle.casdisk_texts.specs.declared.fault.RunFault.{RunFault};
ghost use Rattle.race.specs.Told.{SaysLegal};

use race_numbers::Race;

/// The text of a history is read back as that configuration and those entries, and of a legal one a check says `legal`.
pub fn a_history_is_read_back()
    ensures config { (c : ConfigNumbers) (entries : List Entry) → HasConfigLine c → All HasLine entries →
        first_config (whole_lines (history_text c entries)) ≡ Some c }
    ensures end { (c : ConfigNumbers) (entries : List Entry) →
        HasConfigLine c → config_fault c ≡ None → All HasLine entries →
        (file_of (history_text c entries)).end ≡ done }
    ensures entries { (c : ConfigNumbers) (entries : List Entry) →
        HasConfigLine c → config_fault c ≡ None → All HasLine entries →
        (file_of (history_text c entries)).past ≡ reverse entries }
    ensures legal { (c : ConfigNumbers) (past : Past) →
        HasConfigLine c → config_fault c ≡ None → All HasLine (reverse past) → IsLegal c past →
        IsAnswerOf (history_text c (reverse past)) true legal_text }
{}

/// Whatever a check answers on the text that a race wrote, and on nothing else before it: it says `legal`, unless
/// reading, writing or memory fails it.
pub fn what_a_race_wrote_is_legal(race: &Race)
    ensures { (text : List ℕ) (told : Result Bool RunFault) (left old new : Option (List ℕ)) →
        PrintsLegal (race_config race.now) (Some []) (Some text) → ChecksText told (Some text) left old new →
        SaysLegal told old new }
{
    // (what a race keeps of its numbers is known where they are asked for)
    let _ = race.config().numbers();
}

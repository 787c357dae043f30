//! What each host of a race does.

ghost use Rattle.std.specs.Prelude.{◌≡◌};
ghost use Rattle.race_numbers.specs.Races.{race_config};
ghost use Rattle.race.specs.Slots.{slots_of};
ghost use Rattle.nvme_model.specs.Array.{IsRange};

use nvme_model::array::Range;
use race_hosts::Play;
use race_numbers::Race;

/// What each host of this race does: its rounds, over the slots from block 0 on.
pub fn play_of(race: &Race) -> Play
    ensures config { result.config ≡ race_config race.now }
    ensures slots { result.slots ≡ slots_of race.now }
    ensures area { IsRange result.slots }
    ensures rounds { result.rounds ≡ race.now.rounds }
{
    Play {
        config: race.config(),
        slots: Range {
            slba: 0,
            blocks: race.slots,
        },
        rounds: race.rounds,
    }
}

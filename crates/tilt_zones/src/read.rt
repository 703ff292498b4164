// Zones from files of the time zone database.
ghost use Rattle.std.specs.Prelude.{◌≡◌, ◌≢◌, Ok, IfOk, MatchResult};
ghost use Rattle.jiff_core.specs.declared.error.Error.{Error};
ghost use Rattle.jiff_core.specs.declared.error.TzifFault.{TzifFault};
ghost use Rattle.jiff_tz.specs.Tzif.{IsParseFailure, tzif_view};
ghost use Rattle.jiff_tz.specs.TzifReader.{read_tzif};
ghost use Rattle.jiff_tz.specs.declared.tzif.Tzif.{Tzif};
ghost use Rattle.tilt_zones.specs.Order.{IsInOrder};
ghost use Rattle.tilt_zones.specs.Table.{end_of, first_of, transition_of, transitions_of, zone_of};

use crate::fault::ZoneFault;
use crate::transition::Transition;
use crate::zone::Zone;
use jiff_core::{Error, Timestamp};
use jiff_tz::Tzif;
use std::alloc::{AllocError, Global};

/// How many transitions of a file are taken at most. With two each year they reach past the year 9999.
pub const MOST: usize = 20_000;

/// The moment after the last one that `jiff_tz` has: 9999-12-30T22:00:01Z.
pub const END: i64 = 253_402_207_201;

/// The zone of a file of the time zone database, such as `/usr/share/zoneinfo/Europe/Berlin`. After the transitions that the file lists,
/// those of its rule follow.
pub fn read_zone(alloc: Global, bytes: &[u8]) -> Result<Zone, ZoneFault>
    ensures zone { IfOk result (λ zone. (table : Tzif) × (read_tzif bytes.now ≡ Ok (tzif_view table)) × (zone ≡ zone_of table)) }
    ensures rejected { (fault : TzifFault) → read_tzif bytes.now ≡ Err fault → result ≡ Err ZoneFault.NotZone }
    ensures not_zone { result ≡ Err ZoneFault.NotZone → (e : Error) × IsParseFailure e bytes.now × (e ≢ Error.OutOfMemory) }
    ensures disordered { result ≡ Err ZoneFault.Disordered → (table : Tzif) × (read_tzif bytes.now ≡ Ok (tzif_view table))
        × (¬ (IsInOrder (first_of table) (transitions_of table))) }
{
    match Tzif::parse(alloc, None, bytes) {
        Ok(table) => zone_of(alloc, &table),
        Err(Error::OutOfMemory) => Err(ZoneFault::OutOfMemory),
        Err(_) => Err(ZoneFault::NotZone),
    }
}

// The zone of a table.
fn zone_of(alloc: Global, table: &Tzif) -> Result<Zone, ZoneFault>
    ensures { MatchResult result
        (λ zone. zone ≡ zone_of table.now)
        (λ fault. (fault ≢ ZoneFault.NotZone)
        × (fault ≡ ZoneFault.Disordered → ¬ (IsInOrder (first_of table.now) (transitions_of table.now)))) }
{
    let first = table.to_offset(Timestamp::MIN).seconds;
    match next_transitions(alloc, table) {
        Ok(transitions) => {
            let end = end_of(table, &transitions);
            Zone::new(first, transitions, end)
        }
        Err(_) => Err(ZoneFault::OutOfMemory),
    }
}

// The transitions of a table and its rule, from the first one on.
fn next_transitions(alloc: Global, table: &Tzif) -> Result<Vec<Transition>, AllocError>
    ensures { IfOk result (λ ts. ts.items ≡ transitions_of table.now) }
{
    let mut transitions = Vec::new(alloc);
    let mut at = Timestamp::MIN;
    for _ in 0..MOST {
        let Some(next) = table.next_transition(at) else {
            return Ok(transitions);
        };
        transitions.push(transition_of(next))?;
        at = next.timestamp;
    }
    Ok(transitions)
}

// A transition in whole seconds.
fn transition_of(next: jiff_tz::Transition) -> Transition
    ensures { result ≡ transition_of (next.timestamp.nanosecond, next.info) }
{
    Transition {
        moment: next.timestamp.floor_second(),
        offset: next.info.offset.seconds,
    }
}

// The moment before which the transitions of a table say what clocks show: the last one, if there can be others after it.
fn end_of(table: &Tzif, transitions: &[Transition]) -> i64
    ensures { result ≡ end_of table.now transitions.now }
{
    let count = transitions.len();
    if count == MOST || count > 0 && table.posix_tz().is_none() {
        transitions[count - 1].moment
    } else {
        END
    }
}

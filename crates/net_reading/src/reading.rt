// Reading a net text.
ghost use Rattle.std.specs.Prelude.{◌≡◌, ◌≤◌, true, is_err, MatchResult};
ghost use Rattle.lines.specs.declared.faults.TextFault.TheVariants.{OutOfMemory};
ghost use Rattle.net.specs.Making.{StyleCountGood};
ghost use Rattle.net.specs.Views.{view, idle_net};
ghost use Rattle.net_reading.specs.Reading.{ReadOwes, Parsed, RefusedExactly, Answers, read_outcome};
ghost use Rattle.sheet.specs.Views.{names_of};
ghost use Rattle.theory.specs.Limits.{place_limit};

use crate::heads::{read_end, read_head};
use crate::names::read_names;
use crate::nets::read_places;
use lines::faults::{LineFault, TextFault};
use lines::keys::PLACES;
use lines::numbers::keyed_number;
use net::cells::Cell;
use net::filling::filled;
use net::nets::Net;
use sheet::sheets::Sheet;
use std::alloc::Global;
use theory::limits::PLACE_LIMIT;
use wheel::turning::Wheel;

// An idle net within the limits, so that only memory can be wanting.
fn idle<W: Wheel>(heap: Global, styles: usize, places: usize) -> Result<Net<W>, TextFault>
    requires a_good_number_of_styles { StyleCountGood styles }
    requires few_places { places ≤ place_limit }
    ensures made_idle_or_out_of_memory { MatchResult result (λ net. view W.Wheel net ≡ idle_net W.Wheel styles places) (λ fault. fault ≡ OutOfMemory) }
{
    Net::idle(heap, styles, places).map_err(|_| TextFault::OutOfMemory)
}

// The net of a text, and the names of its styles.
fn parsed<W: Wheel>(heap: Global, text: &[u8]) -> Result<(Net<W>, Sheet), TextFault>
    ensures reads_the_net_or_tells_the_first_fault { Parsed W.Wheel text.now result }
{
    let (styles, rest) = read_head(text, W::positions())?;
    let (sheet, rest) = read_names(rest, styles)?;
    let before_places = 4 + styles as u32;
    let (places, rest) = keyed_number(rest, PLACES, 0..=PLACE_LIMIT as u16).ok_or(LineFault::form(
        before_places,
    ))?;
    let mut net = idle(heap, styles, usize::from(places))?;
    let mut cells = filled(heap, Cell::untested(W::from_digit(0)), styles)?;
    let rest = read_places(rest, &mut net, &mut cells)?;
    read_end(rest, before_places + 1 + u32::from(places))?;
    Ok((net, sheet))
}

// Fills the net and the sheet, which the caller holds, from a net text on the net's wheel (Read).
pub fn read<W: Wheel>(
    heap: Global,
    text: &[u8],
    net: &mut Net<W>,
    sheet: &mut Sheet,
) -> Result<(), TextFault>
    ensures the_net_read_has_that_text { ReadOwes W.Wheel.K text.now (view W.Wheel net.new) (names_of sheet.new) result }
    ensures refused_by_the_number_and_values_of_the_first_fault { Answers W.Wheel.K text.now (read_outcome result) }
    ensures refused_exactly_where_it_is_no_net_text { RefusedExactly W.Wheel.K text.now result }
    ensures refused_calls_change_no_net { is_err result ≡ true → net.new ≡ net.old }
    ensures refused_calls_change_no_sheet { is_err result ≡ true → sheet.new ≡ sheet.old }
{
    let (net_read, sheet_read) = parsed(heap, text)?;
    *net = net_read;
    *sheet = sheet_read;
    Ok(())
}

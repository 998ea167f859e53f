// Copying a net by its text.
ghost use Rattle.lines.specs.declared.faults.TextFault.{TextFault};
ghost use Rattle.net.specs.Views.{view};
ghost use Rattle.net_text.specs.Copying.{RestoredOwes, RewrittenOwes};
ghost use Rattle.net_text.specs.declared.refusals.CopyRefusal.TheVariants.{Read};
ghost use Rattle.sheet.specs.Views.{names_of};
ghost use Rattle.std.specs.Prelude.{◌≡◌, true, is_err, Err};

use crate::refusals::CopyRefusal;
use net::nets::Net;
use net_reading::reading::read;
use net_writing::writing::write;
use sheet::sheets::Sheet;
use std::alloc::Global;
use wheel::turning::Wheel;

// Writes a net and its names into the buffer, and reads them from there into another net and sheet.
pub fn write_then_read<W: Wheel>(
    heap: Global,
    net: &Net<W>,
    sheet: &Sheet,
    buffer: &mut [u8],
    copied_net: &mut Net<W>,
    copied_sheet: &mut Sheet,
) -> Result<usize, CopyRefusal>
    ensures reading_a_written_net_restores_it { RestoredOwes (view W.Wheel net.now) (names_of sheet.now) buffer.old buffer.new (view W.Wheel copied_net.new) (names_of copied_sheet.new) result }
    ensures refused_calls_change_no_net { is_err result ≡ true → copied_net.new ≡ copied_net.old }
    ensures refused_calls_change_no_sheet { is_err result ≡ true → copied_sheet.new ≡ copied_sheet.old }
{
    let len = write(net, sheet, buffer)?;
    read(heap, &buffer[..len], copied_net, copied_sheet)?;
    Ok(len)
}

// Reads a text into a net and a sheet, and writes them into the buffer.
pub fn read_then_write<W: Wheel>(
    heap: Global,
    text: &[u8],
    net: &mut Net<W>,
    sheet: &mut Sheet,
    buffer: &mut [u8],
) -> Result<usize, CopyRefusal>
    ensures a_read_nets_text_is_the_text_that_was_read { RewrittenOwes W.Wheel.K text.now buffer.old buffer.new (view W.Wheel net.new) (names_of sheet.new) result }
    ensures a_refused_text_changes_no_net { (fault : TextFault) → result ≡ Err (Read fault) → net.new ≡ net.old }
    ensures a_refused_text_changes_no_sheet { (fault : TextFault) → result ≡ Err (Read fault) → sheet.new ≡ sheet.old }
{
    read(heap, text, net, sheet)?;
    Ok(write(net, sheet, buffer)?)
}

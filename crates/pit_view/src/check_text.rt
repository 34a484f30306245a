//! The lines of `check`.
ghost use Rattle.std.specs.Prelude.{◌≡◌, OnOk};
ghost use Rattle.std.specs.Io.KnownBytes.{Appends};
ghost use Rattle.pit_view.specs.CheckText.{is_fine as fine_of, fine_text, check_text, check_status as status_by};

use pit_num::{Sink, WriteFault, write_text};
use pit_plan::{Breach, Short};
use pit_step::{Status, write_breach, write_line, write_shorts};

/// The value, the first breach where there is one, the shortfalls, and `fine` where there is neither.
pub(crate) fn write_check<W: Sink>(
    w: &mut W,
    value: i128,
    breach: Option<Breach>,
    shorts: &[Short],
) -> Result<(), WriteFault>
    ensures { OnOk result (Appends (W.contents w.old) (W.contents w.new) (check_text value breach shorts.now)) }
{
    write_text(w, b"value ")?;
    write_line(w, value)?;
    write_breach(w, breach)?;
    write_shorts(w, shorts)?;
    write_fine(w, is_fine(breach, shorts))
}

/// The status that goes with these lines.
pub(crate) fn check_status(breach: Option<Breach>, shorts: &[Short]) -> Status
    ensures { result ≡ status_by breach shorts.now }
{
    if is_fine(breach, shorts) {
        Status::Fine
    } else {
        Status::Failed
    }
}

/// Whether nothing is broken and nothing falls short.
fn is_fine(breach: Option<Breach>, shorts: &[Short]) -> bool
    ensures { result ≡ fine_of breach shorts.now }
{
    match (breach, shorts) {
        (None, []) => true,
        _ => false,
    }
}

fn write_fine<W: Sink>(w: &mut W, is_fine: bool) -> Result<(), WriteFault>
    ensures { OnOk result (Appends (W.contents w.old) (W.contents w.new) (fine_text is_fine)) }
{
    if is_fine {
        return write_text(w, b"fine\n");
    }
    write_text(w, b"")
}

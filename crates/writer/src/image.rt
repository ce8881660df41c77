// The wire image of a frame that is not refused.
ghost use Rattle.std.specs.Prelude.{◌≡◌, false};
ghost use Rattle.refusals.specs.Refusals.{frame_refusal};
ghost use Rattle.writer.specs.Writer.{wire_bits};
ghost use Rattle.writer.specs.Pages.{new_page, new_sheet, marks};

use crate::head::head;
use crate::sheet::Sheet;
use wire::Frame;
use wire::frames::carried;

// The image from the front of a blank sheet; the pen then stands behind it.
#[tactic(auto, using(crate::proofs::Drawing::image_whole))]
pub(crate) fn draw(f: Frame, sheet: &mut Sheet)
    requires taken { frame_refusal f false ≡ 0 }
    requires blank { sheet.old ≡ new_sheet }
    ensures { sheet.new.page ≡ marks new_page (wire_bits f) }
{
    let count = carried(f.remote, f.code as u32);
    sheet.field(head(f));
    sheet.bytes(&f.bytes[..count]);
    sheet.close();
}

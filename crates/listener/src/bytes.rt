// The data bytes of the frame that is being heard.
ghost use Rattle.std.specs.Prelude.{◌≡◌};
ghost use Rattle.listener.specs.Listener.{kept_in};

use reader::Kept;

// What a sample leaves to be kept is stored in place.
pub(crate) fn keep(bytes: &mut [u8], kept: Option<Kept>)
    ensures { bytes.new ≡ kept_in bytes.old kept }
{
    // A test and a store, since a slice's contents are not known behind its `get_mut`.
    if let Some(kept) = kept
        && kept.at < bytes.len()
    {
        bytes[kept.at] = kept.byte;
    }
}

// A field to be drawn.

// The `width` low bits of `value`, highest first.
#[derive(Clone, Copy)]
pub(crate) struct Field {
    pub width: u32,
    pub value: u64,
}

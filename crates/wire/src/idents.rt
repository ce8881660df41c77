// Identifiers (01 "How bits and frames are held"): two kinds of number, neither of which can be passed where the other belongs.

// 11 bits.
#[derive(Clone, Copy)]
pub struct BaseId(pub u16);

// 29 bits.
#[derive(Clone, Copy)]
pub struct ExtId(pub u32);

#[derive(Clone, Copy)]
pub enum Ident {
    Base(BaseId),
    Extended(ExtId),
}

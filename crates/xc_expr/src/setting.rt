/// An assignment as it is written, with names.
#[derive(Clone, Copy, Debug)]
pub enum Setting<'a> {
    /// `X := W`
    To(&'a [u8], &'a [u8]),
    /// `X := next Y`
    Next(&'a [u8], &'a [u8]),
    /// `X := prev Y`
    Prev(&'a [u8], &'a [u8]),
    /// `X := any`
    Any(&'a [u8]),
}

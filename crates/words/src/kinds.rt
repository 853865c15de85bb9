// The kinds of words.

#[derive(Clone, Copy)]
pub enum Kind {
    Epoch,
    I64,
    I32,
    U64,
    U32,
    U8,
    Precision,
    Hex,
}

// What stands behind the words of a row: the line's end; all that is left of it behind a blank; anything, as no verb of the desk asks.
#[derive(Clone, Copy)]
pub enum Tail {
    End,
    Rest,
    Any,
}

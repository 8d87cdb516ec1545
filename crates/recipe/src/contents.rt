// The table of contents: where each body lies and how many records it has.

// Where a body lies in the file, and how many records it has.
#[derive(Clone, Copy)]
pub(crate) struct Body {
    pub place: u16,
    pub count: u16,
}

// The four bodies, in the order of the file.
#[derive(Clone, Copy)]
pub(crate) struct Contents {
    pub methods: Body,
    pub nodes: Body,
    pub edges: Body,
    pub rows: Body,
}

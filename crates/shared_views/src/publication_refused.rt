/// A publication was refused: no memory was found for it, and from then on the view is stale. This crate alone makes one.
#[derive(Clone, Copy, Debug, PartialEq, Eq)]
pub struct PublicationRefused {
    seal: (),
}

impl PublicationRefused {
    pub(crate) fn new() -> PublicationRefused {
        PublicationRefused { seal: () }
    }
}

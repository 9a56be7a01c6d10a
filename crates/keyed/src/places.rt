// Records on places that are all got at once, in whatever order: the first `limit` places serve, the first `used` of them hold
// records. No `Vec` of records, so that `add` and `remove` are one text for these places and for a sheet's, which are a caller's.
ghost use Rattle.std.specs.Prelude.{◌≤◌, vec_len};

pub(crate) mod methods;

#[derive(Drop)]
pub struct Places<R> {
    pub(crate) places: Vec<R>,
    pub(crate) limit: usize,
    pub(crate) used: usize,
    ghost within: { used ≤ limit },
    ghost fits: { limit ≤ vec_len places },
}

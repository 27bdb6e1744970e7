/// What a printed point claims.
#[derive(Clone, Copy, Debug, PartialEq, Eq)]
pub enum Mark {
    /// Every better candidate within the limits is refuted.
    Optimal,
    /// Some better candidate within the limits is not refuted.
    Open,
    /// The point joins two others; its first `adding` steps add up.
    Joined { adding: u8 },
}

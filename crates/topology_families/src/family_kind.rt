//! The kinds of families.

ghost use Rattle.std.specs.Prelude.{◌≡◌, ◌<◌, ◌≤◌};
ghost use Rattle.topology_families.specs.Family.{are_next, columns, is_allowed, is_family_link, is_inside, is_torus_link, kind_number, rows};

/// What the nodes of a family are joined to.
#[derive(Clone, Copy, Debug, PartialEq, Eq)]
pub enum FamilyKind {
    /// Each node to the next and the one before.
    Line,
    /// The same, and the last node to the first.
    Ring,
    /// Each node to every other, by links of their own.
    Complete,
    /// Nodes whose numbers differ in one binary digit.
    Cube,
    /// Each node to every other, by links that share one width.
    Shared,
    /// In rows and columns, each node to the next and the one before in both, the last to the first.
    Torus,
    /// The hybrid cube mesh of eight nodes: in each half every two nodes, and each node to the one
    /// in its place in the other half.
    Mesh,
    /// Each node to every other, by a port out and a port in, each of which its links share.
    Switch,
    /// Boxes of four nodes: in a box every two nodes by links of their own, and each box to every
    /// other by a cable that the links between them share.
    Boxes,
}

impl FamilyKind {
    /// The number of the kind: 0 line, 1 ring, 2 complete, 3 shared, 4 cube, 5 torus, 6 mesh,
    /// 7 switch, 8 boxes.
    pub fn number(self) -> u32
        ensures { result ≡ kind_number self }
    {
        match self {
            FamilyKind::Line => 0,
            FamilyKind::Ring => 1,
            FamilyKind::Complete => 2,
            FamilyKind::Shared => 3,
            FamilyKind::Cube => 4,
            FamilyKind::Torus => 5,
            FamilyKind::Mesh => 6,
            FamilyKind::Switch => 7,
            FamilyKind::Boxes => 8,
        }
    }
}

/// Whether the kind has a family of this size, in nodes: 1 to 16, for `Ring` at least 3, for
/// `Shared` and `Switch` at least 2; for `Cube` a power of two from 2 on, for `Torus` 9, 12 or 16,
/// for `Mesh` 8, and for `Boxes` 8, 12 or 16.
pub fn family_allows(kind: FamilyKind, size: u8) -> bool
    ensures { result ≡ is_allowed kind size }
{
    match kind {
        FamilyKind::Line | FamilyKind::Complete => 1 <= size && size <= 16,
        FamilyKind::Ring => 3 <= size && size <= 16,
        FamilyKind::Shared | FamilyKind::Switch => 2 <= size && size <= 16,
        FamilyKind::Cube => matches!(size, 2 | 4 | 8 | 16),
        FamilyKind::Torus => matches!(size, 9 | 12 | 16),
        FamilyKind::Mesh => size == 8,
        FamilyKind::Boxes => matches!(size, 8 | 12 | 16),
    }
}

/// Whether one of two places in a circle comes right behind the other.
fn are_next(count: u8, a: u8, b: u8) -> bool
    requires positive { 0 < count }
    requires first { a < 16 }
    requires second { b < 16 }
    ensures { result ≡ are_next count a b }
{
    b == (a + 1) % count || a == (b + 1) % count
}

/// The rows of a torus.
fn rows(size: u8) -> u8
    ensures rows { result ≡ rows size }
    ensures positive { 0 < result }
{
    if size == 16 { 4 } else { 3 }
}

/// The columns of a torus.
fn columns(size: u8) -> u8
    ensures columns { result ≡ columns size }
    ensures positive { 0 < result }
{
    if size == 9 { 3 } else { 4 }
}

/// Whether a torus of so many rows and columns has the link.
fn is_torus_link(rows: u8, columns: u8, from: u8, to: u8) -> bool
    requires rows { 0 < rows }
    requires columns { 0 < columns }
    requires from { from < 16 }
    requires to { to < 16 }
    ensures { result ≡ is_torus_link rows columns (from, to) }
{
    let same_row = from / columns == to / columns;
    let same_column = from % columns == to % columns;
    same_row && are_next(columns, from % columns, to % columns)
        || same_column && are_next(rows, from / columns, to / columns)
}

/// Whether the nodes stand in one box of four.
pub(crate) fn is_inside(from: u8, to: u8) -> bool
    ensures { result ≡ is_inside (from, to) }
{
    from / 4 == to / 4
}

/// Whether a family of the kind has the link.
pub(crate) fn has_family_link(kind: FamilyKind, size: u8, from: u8, to: u8) -> bool
    requires positive { 0 < size }
    requires from { from < size }
    requires to { to < size }
    requires small { size ≤ 16 }
    ensures { result ≡ is_family_link kind size (from, to) }
{
    match kind {
        FamilyKind::Line => to == from + 1 || from == to + 1,
        FamilyKind::Ring => are_next(size, from, to),
        FamilyKind::Complete | FamilyKind::Shared | FamilyKind::Switch | FamilyKind::Boxes => {
            from != to
        }
        FamilyKind::Cube => matches!(from ^ to, 1 | 2 | 4 | 8),
        FamilyKind::Torus => is_torus_link(rows(size), columns(size), from, to),
        FamilyKind::Mesh => from != to && (is_inside(from, to) || from % 4 == to % 4),
    }
}

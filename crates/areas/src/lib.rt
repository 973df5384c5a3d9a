// Areas of addresses: whether two share a byte, and the first of a table of areas that one strikes.
#![tactic(auto)]

ghost use Rattle.std.specs.Prelude.{◌≡◌, ◌++◌, ◌∷◌, [], ◌+◌, ◌≤◌, ◌<◌, position};
ghost use Rattle.std.specs.List.{list_any};
ghost use Rattle.areas.specs.Area.{overlaps, ends_by, inside, struck, strikes, areas};

// §3.4: a run of addresses, by its start and its size in bytes.
#[derive(Clone, Copy)]
pub struct Area {
    pub start: u64,
    pub size: u64,
}

// A table of areas: room for every frame that can stand, and for every table in memory. An array and a count, since there is no heap. The
// clauses bound the count, and no ghost field does: the crates above meet these clauses as they are.
#[derive(Clone, Copy)]
pub struct Areas {
    pub rows: [Area; 36],
    pub count: usize,
}

// Whether two areas overlap (§3.4). Starts are compared by their difference, since an end may lie past the last number.
pub fn overlaps(a: Area, b: Area) -> bool
    ensures { result ≡ overlaps a b }
{
    if a.start <= b.start {
        b.start - a.start < a.size && 0 < b.size
    } else {
        a.start - b.start < b.size && 0 < a.size
    }
}

// Whether an area ends at or below a limit (§2.10).
pub fn ends_by(limit: u64, a: Area) -> bool
    ensures { result ≡ ends_by limit a }
{
    a.start <= limit && a.size <= limit - a.start
}

// Whether an area is wholly inside another.
pub fn inside(whole: Area, a: Area) -> bool
    ensures { result ≡ inside whole a }
{
    if a.start < whole.start {
        return false;
    }
    let before = a.start - whole.start;
    before <= whole.size && a.size <= whole.size - before
}

impl Areas {
    // The areas that stand in the table.
    fn as_slice(&self) -> &[Area]
        requires { self.now.count ≤ 36 }
        ensures { result.now ≡ areas self.now }
    {
        &self.rows[..self.count]
    }
}

fn first_struck(rows: &[Area], a: Area) -> Option<usize>
    ensures { result ≡ position (overlaps a) rows.now }
{
    rows.iter().position(|b| overlaps(a, *b))
}

fn any_struck(rows: &[Area], a: Area) -> bool
    ensures { result ≡ list_any (overlaps a) rows.now }
{
    rows.iter().any(|b| overlaps(a, *b))
}

// The index of the first of a table that an area overlaps, or the number of its rows.
pub fn struck(t: Areas, a: Area) -> usize
    requires { t.count ≤ 36 }
    ensures { result ≡ struck (areas t) a }
{
    first_struck(t.as_slice(), a).unwrap_or(t.count)
}

// Whether an area overlaps one of a table.
pub fn strikes(t: Areas, a: Area) -> bool
    requires { t.count ≤ 36 }
    ensures { result ≡ strikes (areas t) a }
{
    any_struck(t.as_slice(), a)
}

// A table with no area.
pub fn none() -> Areas
    ensures { (areas result ≡ []) × (result.count ≡ 0) }
{
    Areas {
        rows: [Area { start: 0, size: 0 }; 36],
        count: 0,
    }
}

// A table with one more area at its end.
pub fn with_area(t: Areas, a: Area) -> Areas
    requires { t.count < 36 }
    ensures { (areas result ≡ areas t ++ (a ∷ [])) × (result.count ≡ t.count + 1) }
{
    let at = t.count;
    let mut next = t;
    next.rows[at] = a;
    next.count = at + 1;
    next
}

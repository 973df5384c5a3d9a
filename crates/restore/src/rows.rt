// The collections that were read so far, where they lie in the bytes. crates/mapcheck has the same search, and a restore does not build on it.
ghost use Rattle.std.specs.Prelude.{◌≡◌};
ghost use Rattle.mapping.specs.Mapped.{collection_key, place_of};
ghost use Rattle.mapping.specs.Commands.{index_of_collection};
ghost use Rattle.maplayout.specs.MapLayout.{decode_map, Counted};

// The index of the collection of an ICID, or the number of collections.
pub fn find_collection(s: &[u8], icid: u64) -> usize
    requires { Counted s.now }
    ensures { result ≡ index_of_collection icid (decode_map s.now) }
{
    let n = maplayout::collection_count(s);
    (0..n)
        .map(|i| maplayout::collection_at(s, i))
        .position(|c| c.icid == icid)
        .unwrap_or(n)
}

// The index of the first collection whose ICID is not below this one, or the number of collections.
pub fn place_collection(s: &[u8], icid: u64) -> usize
    requires { Counted s.now }
    ensures { result ≡ place_of collection_key icid (decode_map s.now).collections }
{
    let n = maplayout::collection_count(s);
    (0..n)
        .map(|i| maplayout::collection_at(s, i))
        .position(|c| icid <= c.icid)
        .unwrap_or(n)
}

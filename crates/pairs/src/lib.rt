// The pairs of an element of the stationary ring and one of the orbiting ring, numbered in the order in which a scan takes them: orbiting
// vertices by stationary edges, stationary vertices by orbiting edges, stationary edges by orbiting edges.
#![tactic(auto)]

ghost use Rattle.std.specs.Prelude.{◌≡◌, ◌≤◌};
ghost use Rattle.pairs.specs.Pairs.{Sides, pair_count, pair_of};

// Kind 0 is a vertex of the orbiting ring with an edge of the stationary one, 1 a vertex of the stationary ring with an edge of the
// orbiting one, 2 an edge of each. An edge has the index of its first vertex.
#[derive(Clone, Copy)]
pub struct Pair {
    pub kind: u8,
    pub stationary: usize,
    pub orbiting: usize,
}

// The pair with the number k.
pub fn pair_at(k: usize, sn: usize, on: usize) -> Pair
    requires sides { Sides sn on }
    requires k_bound { k ≤ pair_count sn on }
    ensures { result ≡ pair_of sn on k }
{
    let m = sn * on;
    let r = k % m;
    if k < m {
        return Pair {
            kind: 0,
            stationary: r % sn,
            orbiting: r / sn,
        };
    }
    Pair {
        kind: (k / m) as u8,
        stationary: r / on,
        orbiting: r % on,
    }
}

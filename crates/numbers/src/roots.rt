//! Square roots rounded up.

ghost use Rattle.std.specs.Prelude.{◌≡◌, min};
ghost use Rattle.numbers.specs.Roots.{root_limit, root_up};
ghost use Rattle.numbers.specs.Laws.{RootIsLeast};

/// Up to which number roots are taken: 2^40.
const ROOT_LIMIT: u64 = 1099511627776;

/// The least number whose square is not below `v`; a number beyond 2^40 counts as 2^40.
pub fn root_up(v: u64) -> u64
    ensures value { result ≡ root_up (min v root_limit) }
    ensures law { RootIsLeast }
{
    let square = v.min(ROOT_LIMIT);
    if square == 0 {
        return 0;
    }
    // By bits, and not by `isqrt`: that goes through the 32 bits of any root of 64, where 20 do, and took three times as long.
    let mut root: u64 = 0;
    for k in (0..20u32).rev() {
        let next = root + (1u64 << k);
        if next * next < square {
            root = next;
        }
    }
    root + 1
}

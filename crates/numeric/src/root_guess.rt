// A guess of a root in whole numbers, which no proof relies on: the inverse root from a table of straight lines, then two of Newton's steps.
// That m lies in its range is a clause and no invariant: square_root makes m at one place, and a type for it would be named in four files.
#![tactic(auto)]

ghost use Rattle.std.specs.Prelude.{◌*◌, ◌^◌, ◌≤◌, ◌<◌};

// The table's pieces begin at 2^52 and are so long each.
const PIECE: u64 = 1 << 47;

// 3, in parts of 2^30
const THREE: u64 = 3 << 30;

// The inverse root of m / 2^52 where a piece begins, in parts of 2^16.
static START: [u16; 96] = [
    65533, 64533, 63577, 62662, 61786, 60945, 60138, 59362, 58616, 57896, 57203, 56534, 55888,
    55264, 54660, 54075, 53509, 52960, 52428, 51911, 51410, 50923, 50449, 49988, 49540, 49103,
    48678, 48264, 47860, 47466, 47082, 46707, 46340, 45983, 45633, 45291, 44957, 44630, 44310,
    43997, 43690, 43390, 43096, 42808, 42525, 42248, 41976, 41710, 41448, 41192, 40940, 40692,
    40449, 40211, 39976, 39746, 39519, 39297, 39078, 38863, 38651, 38442, 38237, 38036, 37837,
    37642, 37449, 37259, 37073, 36889, 36707, 36529, 36353, 36179, 36008, 35839, 35673, 35509,
    35347, 35188, 35030, 34875, 34722, 34570, 34421, 34274, 34128, 33984, 33843, 33702, 33564,
    33427, 33292, 33159, 33027, 32897,
];

// How far it falls in the piece, in parts of 2^22.
static SLOPE: [u16; 96] = [
    64039, 61192, 58551, 56094, 53804, 51666, 49666, 47792, 46032, 44378, 42821, 41353, 39967,
    38656, 37416, 36241, 35125, 34066, 33059, 32101, 31188, 30318, 29487, 28694, 27935, 27210,
    26515, 25849, 25211, 24599, 24011, 23446, 22902, 22380, 21877, 21393, 20926, 20476, 20042,
    19623, 19218, 18827, 18449, 18084, 17731, 17389, 17057, 16737, 16426, 16124, 15832, 15548,
    15273, 15006, 14747, 14494, 14249, 14011, 13780, 13554, 13335, 13122, 12914, 12712, 12515,
    12323, 12135, 11953, 11775, 11601, 11432, 11267, 11105, 10948, 10794, 10644, 10497, 10354,
    10213, 10076, 9942, 9811, 9683, 9557, 9435, 9314, 9197, 9082, 8969, 8858, 8750, 8644, 8540,
    8438, 8338, 8240,
];

// The inverse root of m / 2^52 in parts of 2^32, with 14 good binary digits.
fn line(m: u64) -> u64
    requires { (2 ^ 52 ≤ m) × (m < 2 ^ 54) }
{
    let i = (m / PIECE - 32) as usize;
    let start = u64::from(START[i]) << 16;
    start.wrapping_sub(u64::from(SLOPE[i]).wrapping_mul(m % PIECE) >> 37)
}

// The upper half of a product.
fn upper(a: u64, b: u64) -> u64 {
    ((u128::from(a) * u128::from(b)) >> 64) as u64
}

// A whole number that should be the nearest to the root of m * 2^52: a step doubles the good digits, the first in 32 and the last in 64.
pub fn guess(m: u64) -> u64
    requires { (2 ^ 52 ≤ m) × (m < 2 ^ 54) }
    ensures { result < 2 ^ 55 }
{
    let y = line(m);
    let s = (m >> 22).wrapping_mul(y) >> 32;
    let u = THREE.wrapping_sub(s.wrapping_mul(y) >> 32);
    let y = (y.wrapping_mul(u) >> 32) << 33;
    let s = upper(m << 10, y);
    let u = (THREE << 32).wrapping_sub(upper(s, y));
    upper(s, u).wrapping_add(256) >> 9
}

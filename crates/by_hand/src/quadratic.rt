// The model of the inner solve: a quadratic with a box.

// ½ × q × (u - c)²
fn term(q: f64, u: f64, c: f64) -> f64 {
    let d = u - c;
    0.5 * q * d * d
}

// The curvatures are 1, 2 and 8, the centre is (3, -1, 0.25).
pub fn cost(u: [f64; 3]) -> f64 {
    term(1.0, u[0], 3.0) + term(2.0, u[1], -1.0) + term(8.0, u[2], 0.25)
}

pub fn gradient(u: [f64; 3]) -> [f64; 3] {
    [u[0] - 3.0, 2.0 * (u[1] + 1.0), 8.0 * (u[2] - 0.25)]
}

// The nearest point of the box: -0.5 to 2 at the second place, -2 to 2 at the others.
pub fn project(p: [f64; 3]) -> [f64; 3] {
    [
        p[0].clamp(-2.0, 2.0),
        p[1].clamp(-0.5, 2.0),
        p[2].clamp(-2.0, 2.0),
    ]
}

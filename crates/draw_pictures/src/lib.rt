// Pictures of a tug in 32-bit floats: off the floor, at the centre of a cell, or on its way from one centre to another.
#![tactic(auto)]

ghost use Rattle.std.specs.Prelude.{◌≡◌, ◌≤◌};
ghost use Rattle.meaning.specs.Pictures.{standing_at, rolling_at, place_on, between, place_between};
ghost use Rattle.draw_pictures.specs.Floats.{sixteenths, centre_of, shown};

use site_read::Centre;

// A place, in millimetres.
#[derive(Clone, Copy)]
pub struct Place {
    pub x: f32,
    pub y: f32,
}

// What is drawn of a tug: nothing, where it stands, or where it rolls with its share of the motion.
#[derive(Clone, Copy)]
pub enum Picture {
    OffFloor,
    Standing(Place),
    Rolling(Place, f32),
}

// The share of a motion at frame `k`.
fn share(k: u8) -> f32
    ensures { result ≡ sixteenths k }
{
    f32::from(k) * 0.0625
}

// The coordinate at frame `k` of a motion from `x` to `y`.
fn between(x: u16, y: u16, k: u8) -> f32
    requires { k ≤ 16 }
    ensures { result ≡ sixteenths (between k x y) }
{
    let from = f32::from(x);
    let to = f32::from(y);
    from + share(k) * (to - from)
}

// At a centre.
pub fn standing(c: Centre) -> Picture
    ensures { result ≡ shown (standing_at (place_on (centre_of c))) }
{
    Picture::Standing(Place {
        x: f32::from(c.x),
        y: f32::from(c.y),
    })
}

// At frame `k` of a motion from the centre `a` to the centre `b`.
pub fn rolling(a: Centre, b: Centre, k: u8) -> Picture
    requires { k ≤ 16 }
    ensures { result ≡ shown (rolling_at (place_between k (centre_of a) (centre_of b)) k) }
{
    let x = between(a.x, b.x, k);
    let y = between(a.y, b.y, k);
    Picture::Rolling(Place { x, y }, share(k))
}

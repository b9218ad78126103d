// What draw answers for C: a word, from which a caller reads the number and the kind of picture back, and the picture's floats.
#![tactic(auto)]

ghost use Rattle.std.specs.Prelude.{◌≡◌};
ghost use Rattle.draw_c.specs.Words.{picture_word, drawn_word};

use draw_pictures::Picture;

// The kinds of picture, from bit 8 of the word on.
const STANDING: u64 = 256;

const ROLLING: u64 = 512;

// The word, the place and the share of the motion; each is 0 where there is none.
#[repr(C)]
#[derive(Clone, Copy)]
pub struct DrawnWord {
    pub word: u64,
    pub x: f32,
    pub y: f32,
    pub share: f32,
}

fn picture_word(p: Picture) -> DrawnWord
    ensures { result ≡ picture_word p }
{
    match p {
        Picture::OffFloor => DrawnWord {
            word: 0,
            x: 0.0,
            y: 0.0,
            share: 0.0,
        },
        Picture::Standing(place) => DrawnWord {
            word: STANDING,
            x: place.x,
            y: place.y,
            share: 0.0,
        },
        Picture::Rolling(place, share) => DrawnWord {
            word: ROLLING,
            x: place.x,
            y: place.y,
            share,
        },
    }
}

pub fn drawn_word(d: Result<Picture, u8>) -> DrawnWord
    ensures { result ≡ drawn_word d }
{
    match d {
        Ok(p) => picture_word(p),
        Err(n) => DrawnWord {
            word: u64::from(n),
            x: 0.0,
            y: 0.0,
            share: 0.0,
        },
    }
}

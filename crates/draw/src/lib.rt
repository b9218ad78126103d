// The moving picture of a light: the picture of one of its steps at a frame, and the public call with its checks. No board is looked at.
#![tactic(auto)]

mod drawing;

ghost use Rattle.std.specs.Prelude.{◌≡◌, true, ℕ, ◌≤◌, ◌<◌, length};
ghost use Rattle.meaning.specs.Answers.{lowest};
ghost use Rattle.meaning.specs.Site.{Site, motion_at};
ghost use Rattle.meaning.specs.Light.{is_light, light_of};
ghost use Rattle.meaning.specs.Pictures.{standing_at, rolling_at, state_centre, place_on, place_between, picture_of, picture_refusals, draw_meant};
ghost use Rattle.light.specs.Sizes.{light_length};
ghost use Rattle.light_steps.specs.Steps.{step_at};
ghost use Rattle.light_steps.specs.declared.Step.TheVariants.{Wait};
ghost use Rattle.site.specs.Check.{sizes_of};
ghost use Rattle.site_read.specs.Centres.{centre_read};
ghost use Rattle.draw_pictures.specs.Floats.{shown};
ghost use Rattle.draw.specs.Drawable.{LightDrawable};
ghost use Rattle.draw.specs.Drawings.{site_drawn};
ghost use Rattle.draw.specs.Steps.{stands_in};
ghost use Rattle.answers.specs.Answers.{number_of, numbered};
ghost use Rattle.draw.specs.Drawn.{drawn_of};

use answers::Refusal;
use draw_pictures::Picture;
use drawing::Drawing;
use light_steps::Step;
use site::Sizes;
use site_layout::SiteFile;
use site_read::Centre;

// The frames of a step are 0 to 16.
const LAST_FRAME: u8 = 16;

// ---- where a tug is drawn

// The centre of the state's cell.
fn state_centre(drawing: &Drawing<'_>, state: usize) -> Centre
    requires { state < length (site_drawn drawing.now).states }
    ensures { result ≡ centre_read (state_centre (site_drawn drawing.now) state) }
{
    let cell = site_read::state_cell(&drawing.file, state);
    site_read::read_centre(&drawing.file, drawing.sizes.centres, cell)
}

// Standing in a state.
fn stand(drawing: &Drawing<'_>, state: usize) -> Picture
    requires { state < length (site_drawn drawing.now).states }
    ensures { result ≡ shown (standing_at (place_on (state_centre (site_drawn drawing.now) state))) }
{
    draw_pictures::standing(state_centre(drawing, state))
}

// Frame `k` of the motion `m`, from its own from state to its own to state.
fn roll(drawing: &Drawing<'_>, m: usize, k: u8) -> Picture
    requires { (m < length (site_drawn drawing.now).motions) × (k ≤ 16) }
    ensures { result ≡ shown (rolling_at (place_between k (state_centre (site_drawn drawing.now) (motion_at (site_drawn drawing.now) m).from) (state_centre (site_drawn drawing.now) (motion_at (site_drawn drawing.now) m).to)) k) }
{
    let motion = site_read::find_motion(&drawing.file, drawing.sizes.start, m);
    let from = motion.from;
    let to = motion.to;
    let old = state_centre(drawing, from);
    let new = state_centre(drawing, to);
    draw_pictures::rolling(old, new, k)
}

// ---- the step

// Where the step starts in a light; behind the last one if there is no such step.
fn step_place(step: usize) -> usize
    requires { step < 65536 }
    ensures { result ≡ light_length step }
{
    light::FIRST_STEP + light::STEP_FIELD * step
}

// The state in which a wait stands: that of the motion before it, or the start.
fn wait_state(drawing: &Drawing<'_>, light: &[u8], start: usize, step: usize) -> usize
    requires light { LightDrawable (site_drawn drawing.now) light.now × (start ≡ (light_of light.now).start) }
    requires step_bound { (step < 65536) × ((n : ℕ) × (later : ℕ) × (Wait n later ≡ step_at light.now (light_length step))) }
    ensures { (result ≡ stands_in (site_drawn drawing.now) start (light_of light.now).steps step) × (result < length (site_drawn drawing.now).states) }
{
    if step == 0 {
        return start;
    }
    match light_steps::step_at(light, step_place(step - 1)) {
        Step::Move(m, _) => {
            let motion = site_read::find_motion(&drawing.file, drawing.sizes.start, m as usize);
            motion.to
        }
        _ => start,
    }
}

// The picture of a light's step at frame `k`.
fn picture(drawing: &Drawing<'_>, light: &[u8], step: u16, k: u8) -> Picture
    requires { LightDrawable (site_drawn drawing.now) light.now × (k ≤ 16) }
    ensures { result ≡ shown (picture_of (site_drawn drawing.now) (light_of light.now) step k) }
{
    let number = step as usize;
    match light_steps::step_at(light, step_place(number)) {
        Step::Move(m, _) => roll(drawing, m as usize, k),
        Step::Wait(_, _) => {
            let head = light_read::read_head(light);
            let start = head.start as usize;
            let state = wait_state(drawing, light, start, number);
            stand(drawing, state)
        }
        _ => Picture::OffFloor,
    }
}

// ---- the call

// The checks of draw from 8 on.
fn check_picture(sizes: Sizes, light: &[u8], k: u8) -> Result<(), Refusal>
    ensures { (site : Site) → sizes ≡ sizes_of site → number_of result ≡ lowest (picture_refusals site light.now k) }
{
    if !light_read::is_light(light) {
        return Err(Refusal::LightLayout);
    }
    if !plan_check::light_named(sizes, light) {
        return Err(Refusal::OutOfRange);
    }
    if LAST_FRAME < k || sizes.centres == 0 {
        return Err(Refusal::NoPicture);
    }
    Ok(())
}

// What a screen shows of a light: the picture of a step, from 0 on, at frame `k`. It makes the checks 1 to 6, 8, 10 and 20, and no others.
pub fn draw(file: &[u8], light: &[u8], step: u16, k: u8) -> Result<Picture, Refusal>
    ensures value { numbered result ≡ drawn_of (draw_meant file.now light.now step k) }
    ensures file_unchanged { file.exit.now ≡ file.entry.now }
    ensures light_unchanged { light.exit.now ≡ light.entry.now }
{
    let sizes = site::check_site(file)?;
    check_picture(sizes, light, k)?;
    let drawing = Drawing {
        file: SiteFile { bytes: file },
        sizes,
    };
    Ok(picture(&drawing, light, step, k))
}

// The judge of images for callers in C and Rust, for comparison alone. It asks nothing of the bytes.
#![tactic(auto)]

ghost use Rattle.std.specs.Prelude.{◌≡◌};
ghost use Rattle.model.specs.Lists.{len};
ghost use Rattle.model.specs.image.Image.{read_image, whole};
ghost use Rattle.model.specs.image.Program.{get_job};
ghost use Rattle.image_judge.specs.Verdicts.{verdict_of, job_verdict};
ghost use Rattle.link_judge.specs.Places.{place_of, job_place};

// Where no fault is.
const NO_FAULT: usize = 18446744073709551615;

// The place of the first fault in an image.
#[unsafe(no_mangle)]
pub extern "C" fn im_judge_image(bytes: &[u8]) -> usize
    ensures { result ≡ place_of (verdict_of (read_image bytes.now)) }
{
    match image_judge::judge_image(bytes) {
        Ok(()) => NO_FAULT,
        Err(k) => k,
    }
}

// The place of the first fault in an image with a pick behind it.
#[unsafe(no_mangle)]
pub extern "C" fn im_judge_job(bytes: &[u8]) -> usize
    ensures { result ≡ job_place (job_verdict (whole (len bytes.now) (get_job bytes.now))) }
{
    match image_judge::judge_job(bytes) {
        Ok(_) => NO_FAULT,
        Err(k) => k,
    }
}

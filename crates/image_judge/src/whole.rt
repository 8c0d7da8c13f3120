// An image and nothing else, and an image with a pick behind it.
ghost use Rattle.std.specs.Prelude.{◌≡◌, ◌≤◌, length};
ghost use Rattle.model.specs.Lists.{len};
ghost use Rattle.model.specs.image.Image.{read_image, whole as whole_of};
ghost use Rattle.model.specs.image.Program.{get_job};
ghost use Rattle.image_judge.specs.Verdicts.{verdict_of, job_verdict, PickTold};

use crate::front::read_front;
use image_records::{Pick, read_pick};

// Whether the bytes are an image; the error is the place of the first fault, by which left-over bytes count as a record.
pub fn judge_image(bytes: &[u8]) -> Result<(), usize>
    ensures { result ≡ verdict_of (read_image bytes.now) }
{
    let k = read_front(bytes)?;
    if k < bytes.len() {
        return Err(k);
    }
    Ok(())
}

// The pick record behind an image that ends at `at`.
fn judge_pick(bytes: &[u8], at: usize) -> Result<Pick, usize>
    requires { at ≤ length bytes.now }
    ensures { PickTold at bytes.now result }
{
    let Some(p) = read_pick(bytes, at) else {
        return Err(at);
    };
    let end = at + 18;
    if end < bytes.len() {
        return Err(end);
    }
    Ok(p)
}

// An image and a pick record behind it: the pick's numbers, or as the error the place of the first fault.
pub fn judge_job(bytes: &[u8]) -> Result<Pick, usize>
    ensures { result ≡ job_verdict (whole_of (len bytes.now) (get_job bytes.now)) }
{
    let end = read_front(bytes)?;
    judge_pick(bytes, end)
}

// Any bytes.
ghost use Rattle.std.specs.Prelude.{◌≡◌, length};
ghost use Rattle.model.specs.image.Program.{program};
ghost use Rattle.pick_job.specs.Jobs.{answer_of};

use crate::stored::pick_image;
use image_judge::judge_job;
use pick_pieces::Picked;
use types::Refusal;

// 13 with the place of the first fault; 2 past the program's limits; then what the pick answers. Its blocks stand in the output, each as a
// word: piece · 65,536 + block.
pub fn job(bytes: &[u8], out: &mut [u64]) -> Result<Picked, Refusal>
    requires { length out.old ≡ 4351 }
    ensures { answer_of out.new result ≡ program bytes.now }
{
    match judge_job(bytes) {
        Err(k) => Err(Refusal::IllFormedImage(k)),
        Ok(p) => {
            let end = bytes.len() - 18;
            pick_image(&bytes[..end], p, out)
        }
    }
}

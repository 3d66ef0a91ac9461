// The call exec.
ghost use Rattle.std.specs.Prelude.{◌≡◌, ◌+◌, ◌<◌, ◌≤◌, ◌^◌, IfOk, IfSome, IsTrue, OnErr, OnOk};
ghost use Rattle.parts_model.specs.declared.limits.TheConstants.{MOST_BLOCK_BYTES};
ghost use Rattle.parts_model.specs.Files.{find_file};
ghost use Rattle.parts_model.specs.Image.{is_image};
ghost use Rattle.parts_model.specs.Signals.{no_handlers};
ghost use Rattle.acts_model.specs.Acts.{Starts};
ghost use Rattle.acts_model.specs.Views.{argument};
ghost use Rattle.arn_model.specs.Kernel.{with_handling};
ghost use Rattle.arn_model.specs.ProcessCalls.{exec_file, exec_row};
ghost use Rattle.guest_bodies.specs.Shown.{IsLive, seen_in};
ghost use Rattle.guest_calls.specs.Acted.{Acted, Carried};
ghost use Rattle.guest_calls.specs.Fits.{IsShort};
ghost use Rattle.guest_calls.specs.State.{OfProcess};

use crate::kernel::Kernel;
use crate::outcomes::Done;
use arn_base::{Extra, NoMemory};
use guest_bodies::others_stay_unheld;
use guest_requests::{error, is_image, lacks_block, path, path_refusal};
use parts_model::limits::MOST_BLOCK_BYTES;
use parts_model::refusals::{BAD_ADDRESS, NO_FILE, NOT_IMAGE};

impl Kernel {
    /// The call `exec(path, length, block, block length)`.
    pub(crate) fn exec(&mut self, pid: u32) -> Result<Done, NoMemory>
        requires live { IsLive self.old.guests pid }
        requires room { self.old.events + 1 < 2 ^ 64 }
        ensures carried { IfOk result (λ done. OfProcess self.old pid (λ m v.
            Carried (exec_row m pid v) done m pid v self.new)) }
        ensures short { IfOk result (λ done. IsShort done.extra) }
        ensures err { OnErr result (self.new ≡ self.old) }
    {
        let at = self.argument(pid, 0);
        let len = self.argument(pid, 1);
        let block = self.argument(pid, 2);
        let block_len = self.argument(pid, 3);
        if let Some(answer) = path_refusal(
            &self.bodies,
            pid,
            at,
            len,
            block_len > MOST_BLOCK_BYTES,
        ) {
            return Ok(self.answers(pid, answer));
        }
        if lacks_block(&self.bodies, pid, block, block_len) {
            return Ok(self.answers(pid, error(BAD_ADDRESS)));
        }
        let path = path(&self.bodies, pid, at, len)?;
        self.exec_path(pid, path.as_slice(), block, block_len)
    }

    // Starts the image of a name, with an argument block.
    fn exec_path(
        &mut self,
        pid: u32,
        path: &[u8],
        block: u64,
        block_len: u64,
    ) -> Result<Done, NoMemory>
        requires live { IsLive self.old.guests pid }
        requires room { self.old.events + 1 < 2 ^ 64 }
        requires block { IfSome (seen_in self.old.guests pid) (λ v. block ≡ argument v.body.cpu 2) }
        requires block_len { IfSome (seen_in self.old.guests pid) (λ v.
            block_len ≡ argument v.body.cpu 3) }
        requires few { block_len ≤ MOST_BLOCK_BYTES }
        ensures carried { IfOk result (λ done. OfProcess self.old pid (λ m v.
            Carried (exec_file m pid v (find_file m.kernel.files path.now)) done m pid v self.new)) }
        ensures short { IfOk result (λ done. IsShort done.extra) }
        ensures err { OnErr result (self.new ≡ self.old) }
    {
        let file = match self.resources.find_file(path) {
            Some(file) => file,
            None => return Ok(self.answers(pid, error(NO_FILE))),
        };
        let give = self.resources.read_all(file)?;
        if !is_image(give.bytes.as_slice()) {
            return Ok(self.answers(pid, error(NOT_IMAGE)));
        }
        self.restart(pid, give.bytes.as_slice(), block, block_len)?;
        Ok(Done {
            result: 0,
            extra: Extra::Give(give),
        })
    }

    // A process starts anew from an image.
    fn restart(
        &mut self,
        pid: u32,
        image: &[u8],
        block: u64,
        block_len: u64,
    ) -> Result<(), NoMemory>
        requires live { IsLive self.old.guests pid }
        requires room { self.old.events + 1 < 2 ^ 64 }
        requires image { IsTrue (is_image image.now) }
        requires few { block_len ≤ MOST_BLOCK_BYTES }
        ensures started { OnOk result (Acted pid (Starts image.now block block_len)
            (with_handling pid (λ h. record h { handlers = no_handlers }) self.old.kernel)
            self.old self.new) }
        ensures err { OnErr result (self.new ≡ self.old) }
    {
        others_stay_unheld();
        self.bodies
            .starts(pid, self.events, image, block, block_len)?;
        self.events += 1;
        Ok(())
    }
}

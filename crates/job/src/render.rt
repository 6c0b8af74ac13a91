// What is printed of a run's end. The cells stay three lists, whose lengths are asked to be the same: docs/DECISIONS.md, "Cells are three lists".
ghost use Rattle.std.specs.Prelude.{◌≡◌, ◌≤◌, length};
ghost use Rattle.eval.specs.Config.{config};
ghost use Rattle.eval.specs.Counted.{ended_of};
ghost use Rattle.job.specs.Text.{render, end_lines};
ghost use Rattle.job.specs.Written.{HasRoom, Wrote};

use crate::text::Page;
use eval::{Answer, Run};
use machine::State;

impl Page<'_> {
    // The lines behind the first.
    fn put_end(
        self,
        state: &State,
        steps: u64,
        addresses: &[u64],
        tags: &[u8],
        values: &[u64],
    ) -> Self
        requires tags_len { (length tags.now ≡ length addresses.now) × (length values.now ≡ length addresses.now) }
        requires room { HasRoom 65483 self × (length addresses.now ≤ 1024) }
        ensures { Wrote 65483 self.entry
            (end_lines addresses.now tags.now (config state.now values.now) steps) result }
    {
        self.put_line(b"steps", steps)
            .put_line(b"flags", state.flags)
            .put_regs(&state.regs)
            .put_xmms(&state.xmms)
            .put_cells(addresses, tags, values)
    }

    pub fn put_run(self, run: &Run, addresses: &[u64], tags: &[u8], values: &[u64]) -> Self
        requires tags_len { (length tags.now ≡ length addresses.now) × (length values.now ≡ length addresses.now) }
        requires room { HasRoom 65536 self × (length addresses.now ≤ 1024) }
        ensures { Wrote 65536 self.entry
            (render addresses.now tags.now (ended_of run.now values.now)) result }
    {
        let page = self.put_answer(run.answer);
        if let Answer::Refused(_, _) = run.answer {
            return page;
        }
        page.put_end(&run.state, run.steps, addresses, tags, values)
    }
}

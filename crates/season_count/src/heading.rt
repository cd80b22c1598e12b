// The answer to the request of a frame. Lines of one heading come in runs: the heading of the line before is remembered, and which rules concern it.
ghost use Rattle.std.specs.Prelude.{◌≡◌, ◌≤◌, length, take, ltb};
ghost use Rattle.text.specs.Test.{◌and◌};
ghost use Rattle.text_affix.specs.Affix.{begins};
ghost use Rattle.season_count.specs.Loaded.{Remembered, Headed, Judges};

use crate::loaded::Loaded;
use crate::run::Run;
use verdict_compare::place::Elements;
use verdict_concern::Asker;
use verdict_request::PathAnswer;

impl Run {
    // Whether a heading is remembered, and the frame starts with it.
    fn is_of(&self, frame: &[u8]) -> bool
        ensures { result ≡ (ltb 0 self.now.len and begins (take self.now.len self.now.key) frame.now) }
    {
        self.len != 0 && text_affix::starts_with(&self.key[..self.len], frame)
    }

    // Remembers the heading of the frame, where that is good; where its path starts.
    fn turn_to(&mut self, table: Loaded, frame: &[u8]) -> Option<usize>
        requires { Remembered table self.old }
        ensures { Headed table.entry frame.now self.new result }
    {
        if self.is_of(frame) {
            return Some(self.len);
        }
        let heading = request_log::read_heading(frame)?;
        if heading.refusal.is_err() {
            return None;
        }
        let origin = heading.origin;
        let path = heading.path;
        let start = origin + 1;
        let user = &frame[2..origin];
        let asker = Asker {
            user,
            set: table_membership::memberships(
                table.rules.bytes,
                table.users,
                table.owners,
                table.members,
                user,
            ),
            mode: frame[0] as u32,
            origin: &frame[start..path],
        };
        asker.mark(table.rules, &mut self.on);
        text::fill::copy(&frame[..path], &mut self.key, 0);
        self.len = path;
        Some(path)
    }

    // The answer to the request of the frame. None: it holds no good one. What is required of the run binds it to the table, so no invariant of
    // either type says it.
    pub fn judge(&mut self, table: Loaded, frame: &[u8]) -> Option<PathAnswer>
        requires { Remembered table self.old }
        ensures { Judges table.entry frame.now self.new result }
    {
        let path = self.turn_to(table, frame)?;
        if !path_frame::is_path_from(frame, path) {
            return None;
        }
        let found = verdict_judge::decide::decide(
            table.rules,
            &self.on,
            Elements::read(frame, path),
        );
        Some(verdict_request::answer::decided(found))
    }
}

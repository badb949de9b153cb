//! A section taken: read, tested against what is known, and entered.
ghost use Rattle.std.specs.Prelude.{◌≡◌, length, OnErr};
ghost use Rattle.geometry.specs.Cells.{frame_size};
ghost use Rattle.refusal.specs.Rules.{Answers};
ghost use Rattle.section.specs.Rules.{read_rules};
ghost use Rattle.frame.specs.Fields.{fields, fields_of};
ghost use Rattle.table.specs.Bursts.{table_of};
ghost use Rattle.table.specs.Rules.{section_rules};
ghost use Rattle.table.specs.Taking.{Took, numbers_after};
ghost use Rattle.receiver.specs.Parts.{Inside, ColumnInside, EndInside};
ghost use Rattle.receiver.specs.Views.{numbers_of};

use crate::numbers::{Latest, Numbers};
use crate::telling::Told;
use refusal::Refusal;
use section::{FrameSize, Section, read};

impl Numbers {
    // The numbers once a section was taken that came in then.
    fn after(self, section: Section<'_>, arrival: u32) -> Numbers
        requires end { EndInside self.rows.count (fields section) }
        ensures { numbers_of result ≡ numbers_after (fields section.entry) arrival (numbers_of self) }
    {
        let delta_t = section.timing.delta_t;
        Numbers {
            rows: self.rows,
            told: self.told.with(Told::by(section)),
            latest: Some(Latest { arrival, delta_t }),
        }
    }

    // Reads a section for the burst's frame, by a code with so many check columns.
    fn read(self, check_columns: usize, section: &[u8]) -> Result<Section<'_>, Refusal>
        ensures { Answers (read_rules self.rows.count «check_columns» section.now)
            (λ x. (fields x ≡ fields_of section.now) × ColumnInside self.rows.count (fields x) (frame_size «check_columns» self.rows.count)) result }
    {
        let frame = FrameSize {
            rows: self.rows.count(),
            check_columns,
        };
        read(section, frame)
    }

    // The fields of a section that none of 4 to 13 turns away. Its payload then lies inside the buffers, and the end that it tells
    // inside the application table.
    fn admit<'a>(
        self,
        check_columns: usize,
        section: &'a [u8],
        cells: &[u8],
        marks: &[u8],
    ) -> Result<Section<'a>, Refusal>
        requires cells { length cells.now ≡ frame_size «check_columns» self.rows.count }
        requires marks { length marks.now ≡ length cells.now }
        ensures { Answers (section_rules «check_columns» (table_of (numbers_of self) cells.now marks.now) section.now)
            (λ x. (fields x ≡ fields_of section.now) × Inside self.rows.count (fields x) (length cells.now) × EndInside self.rows.count (fields x)) result }
    {
        let section = self.read(check_columns, section)?;
        self.check(section, cells, marks)?;
        Ok(section)
    }

    // Takes a section into buffers of the frame's size, or refuses it under 4 to 13 and leaves all as it was.
    pub(crate) fn take(
        &mut self,
        check_columns: usize,
        section: &[u8],
        arrival: u32,
        cells: &mut [u8],
        marks: &mut [u8],
    ) -> Result<(), Refusal>
        requires cells { length cells.old ≡ frame_size «check_columns» self.old.rows.count }
        requires marks { length marks.old ≡ length cells.old }
        ensures answer { Answers (section_rules «check_columns» (table_of (numbers_of self.old) cells.old marks.old) section.now)
            (λ _. Took (fields_of section.now) arrival (numbers_of self.old) cells.old marks.old (numbers_of self.new) cells.new marks.new) result }
        ensures stays { OnErr result ((self.new ≡ self.old) × (cells.new ≡ cells.old) × (marks.new ≡ marks.old)) }
    {
        let section = self.admit(check_columns, section, cells, marks)?;
        self.enter(section, cells, marks);
        *self = self.after(section, arrival);
        Ok(())
    }
}

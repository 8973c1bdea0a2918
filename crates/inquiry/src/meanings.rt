// What a question says of itself, in the product and in the reference.
use crate::inquiry::Inquiry;
use board::{Grid, Tag};
use field::Field;
use question::{Fit, Question};
use reference::Element;
use report::{Report, element, elements, parts};
use std::alloc::AllocError;

// The rule of a question that fits, at a point on columns of the grid's number.
fn rule_of<F: Field, Q: Question<F>>(
    question: &Q,
    grid: Grid,
    point: F,
    columns: &[F],
) -> Option<F> {
    match question.fit(grid) {
        Fit::Fits if columns.len() == grid.columns as usize => {
            Some(question.rule(grid, point, columns))
        }
        _ => None,
    }
}

// Holds a tag to the reference's, number by number.
fn compare_tags(report: &mut Report, found: Tag, wanted: reference::Tag) {
    report.same("the kind of a tag", u64::from(found.kind), wanted.kind);
    report.same(
        "the first number of a tag",
        u64::from(found.first),
        wanted.first,
    );
    report.same(
        "the second number of a tag",
        u64::from(found.second),
        wanted.second,
    );
}

impl<'a, F: Field, Q: Question<F>> Inquiry<'a, F, Q> {
    /// Whether it fits, its degree, its limits and its tag.
    pub fn compare_meaning(&mut self) {
        let question = self.question;
        let grid = self.grid();
        let at = self.sealed.host.at;
        let limits = self.ask.limits(self.table.source.field.limit);
        let fits = question.fit(grid) == Fit::Fits;
        let degree = u64::from(question.degree(grid));
        let report = &mut self.table.report;
        report.holds("whether a question fits", fits == self.ask.fits(at));
        report.same("a degree", degree, self.ask.degree(at));
        report.holds("the least claim", question.least() == limits.least);
        report.holds("the greatest claim", question.greatest() == limits.greatest);
        compare_tags(report, question.tag(), self.ask.tag());
    }

    /// The rule at a point, on the columns of the counts there, part by part.
    pub fn compare_rule(&mut self, point: Element) -> Result<(), AllocError> {
        let game = self.table.source.game(self.sealed.host.at);
        let plain = game.columns_at(self.sealed.host.plain.as_slice(), point)?;
        let columns: Vec<F> = elements(self.table.source.heap, plain.as_slice())?;
        let rule = rule_of(
            self.question,
            self.grid(),
            element(point),
            columns.as_slice(),
        );
        if let Some(value) = rule {
            let wanted = game.rule(self.ask, point, plain.as_slice())?;
            let found = parts(value);
            let report = &mut self.table.report;
            report.same("the low part of a rule", found.low, wanted.low);
            report.same("the high part of a rule", found.high, wanted.high);
        }
        Ok(())
    }
}

// The text that is printed.
ghost use Rattle.std.specs.Prelude.{Some};
ghost use Rattle.listing.specs.Pages.{line, numbers, printed};

use crate::types::{Listing, Row};
use std::fmt;

// The line of a row, with zeros where there is no route.
impl fmt::Display for Row {
    ghost output = { λ row. Some (line (numbers row)) };

    fn fmt<W: fmt::Write>(&self, f: &mut fmt::Formatter<W>) -> fmt::Result {
        let route = self.route.unwrap_or_default();
        writeln!(
            f,
            "{:>10}{:>10}{:>10}{:>10}{:>10}",
            self.source, self.destination, route.next, route.links, route.delay
        )
    }
}

// The lines of all rows, or the line of the fault.
impl fmt::Display for Listing {
    ghost output = { λ listing. Some (printed listing) };

    fn fmt<W: fmt::Write>(&self, f: &mut fmt::Formatter<W>) -> fmt::Result {
        match self {
            Listing::Table(rows) => {
                for row in rows {
                    write!(f, "{row}")?;
                }
                Ok(())
            }
            Listing::Faulty(fault) => writeln!(
                f,
                "{:>10}{:>10}{:>10}{:>10}",
                fault.number(),
                fault.line,
                fault.column(),
                fault.layer()
            ),
        }
    }
}

//! Names by their numbers.
ghost use Rattle.std.specs.Prelude.{◌≡◌, List, option_copied, IsTrue, IfSome};
ghost use Rattle.s3_rows.specs.Rows.{Name};
ghost use Rattle.s3_rows.specs.Keyed.{row_at};
ghost use Rattle.s3_rows.specs.Tables.{by_name};
ghost use Rattle.s3_rows.specs.Told.{has_short_name};

use s3_rows::NameRow;

/// Rows of names that are looked up by their numbers.
pub trait NameTable {
    /// The rows.
    ghost rows: { Self → List Name };

    /// Rows can be looked up.
    ghost stands: { Self → Type 0 };

    fn name_row(&self, id: u64) -> Option<&NameRow>
        requires { stands self.now }
        ensures row { option_copied result ≡ row_at by_name id (rows self.now) }
        ensures short { IfSome result (λ r. IsTrue (has_short_name r.now.name)) };
}

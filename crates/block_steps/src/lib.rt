//! What changes of the places of blocks make of tables: of counts, of the forms that places have, and of what the store is to hold.
#![tactic(auto)]

mod drops;
mod forms;
mod owed;
mod places;
mod rows;

pub use drops::dropped_places_leave_valid_tables;
pub use forms::{
    counted_blocks_leave_forms, made_blocks_have_their_form, relinked_places_have_their_form,
};
pub use owed::{
    counted_blocks_owe_a_place, made_blocks_owe_a_place, order_of_debts_is_free,
    places_pay_for_their_blocks, tables_that_owe_no_places_are_valid,
};
pub use places::relinked_places_leave_valid_tables;
pub use rows::{
    changes_of_places_keep_names, kept_rows_keep_what_is_held, names_kept_keep_the_tree,
};

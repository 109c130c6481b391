//! Laws of the plain fields, each the contract of a function without a body.
ghost use Rattle.frame_fields.specs.Format.{ReadsBack};
ghost use Rattle.frame_fields.specs.Fields.{u16_field, u32_field, u64_field, name_field, data_field, pass_field, time_field, mode_field, item_count_field, short_name_field, digest_field, digest_or_none_field, node_kind_field, flag_field};

/// What is written of a number is read again, whatever follows it.
pub fn numbers_read_back()
    ensures u16 { ReadsBack u16_field }
    ensures u32 { ReadsBack u32_field }
    ensures u64 { ReadsBack u64_field }
    ensures pass { ReadsBack pass_field }
    ensures time { ReadsBack time_field }
    ensures mode { ReadsBack mode_field }
    ensures count { ReadsBack item_count_field }
{}

/// The same of bytes.
pub fn bytes_read_back()
    ensures name { ReadsBack name_field }
    ensures short_name { ReadsBack short_name_field }
    ensures data { ReadsBack data_field }
    ensures digest { ReadsBack digest_field }
    ensures digest_or_none { ReadsBack digest_or_none_field }
{}

/// The same of values of which there are few.
pub fn codes_read_back()
    ensures kind { ReadsBack node_kind_field }
    ensures flag { ReadsBack flag_field }
{}

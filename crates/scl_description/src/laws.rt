//! Laws of the definitions of rows and descriptions. Each is a clause of a function with an empty body.
ghost use Rattle.scl_description.specs.Laws.{RowsReadBack, DescriptionReadsBack, DescriptionReadsBackAmong};

/// Laws of descriptions (docs/RULES.md, Descriptions):
///
/// - `rows_read_back`: rows that are written are read back;
/// - `description_reads_back`: the lines of a record are read back as the record;
/// - `description_reads_back_among`: the same among lines with other names, before and after them.
pub fn of_descriptions()
    ensures rows_read_back { RowsReadBack }
    ensures description_reads_back { DescriptionReadsBack }
    ensures description_reads_back_among { DescriptionReadsBackAmong }
{}

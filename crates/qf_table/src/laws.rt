ghost use Rattle.qf_table.specs.Meaning.{TablesSayTheirRecords};

/// Each cell of a table that bytes are says its field, by the number that the field writes or by the code of its text, and
/// the texts are those of the text fields, in the order in which they first come. The law holds of the definitions, and the
/// call does nothing.
pub fn tables_say_their_records()
    ensures { TablesSayTheirRecords }
{}

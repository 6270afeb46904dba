ghost use Rattle.std.specs.Prelude.{◌≡◌, ◌<◌, ◌^◌, [], ◌∷◌, ◌++◌, length, IfOk, OnOk};
ghost use Rattle.csv.specs.Records.{fields_of, partial_of};
ghost use Rattle.qf_app.specs.Parameters.{parameters_header, parameter_record, parameters_text};

use csv::ByteRecord;
use qf_base::{List, NoMemory};
use qf_csv::RecordWriter;
use qf_log::ParamPlace;
use std::alloc::Global;

// Adds a field to a record.
fn push(fields: &mut ByteRecord, field: &[u8]) -> Result<(), NoMemory>
    requires { partial_of fields.old ≡ [] }
    ensures fields { OnOk result (fields_of fields.new ≡ fields_of fields.old ++ field.now ∷ []) }
    ensures partial { OnOk result (partial_of fields.new ≡ []) }
{
    fields.push_field(field)?;
    Ok(())
}

fn header(alloc: Global) -> Result<ByteRecord, NoMemory>
    ensures { IfOk result (λ r. fields_of r ≡ parameters_header) }
{
    let mut fields = ByteRecord::new(alloc);
    push(&mut fields, b"param")?;
    push(&mut fields, b"old")?;
    push(&mut fields, b"statement")?;
    push(&mut fields, b"offset")?;
    Ok(fields)
}

// Makes the record that of the parameter with this number.
fn fill(
    alloc: Global,
    fields: &mut ByteRecord,
    number: u32,
    place: ParamPlace,
) -> Result<(), NoMemory>
    ensures { OnOk result (fields_of fields.new ≡ parameter_record number place) }
{
    fields.clear();
    let ParamPlace {
        statement,
        start,
        old,
        ..
    } = place;
    push(fields, format!(in alloc; "p{number}")?.as_str().as_bytes())?;
    push(fields, format!(in alloc; "{old}")?.as_str().as_bytes())?;
    push(
        fields,
        format!(in alloc; "{statement}")?.as_str().as_bytes(),
    )?;
    push(fields, format!(in alloc; "{start}")?.as_str().as_bytes())
}

/// The parameters of a log as CSV: a header `param,old,statement,offset`, then for each parameter `p` and its number, its
/// old constant, the number of its statement, and the offset of its literal.
pub(crate) fn print_parameters(alloc: Global, places: &[ParamPlace]) -> Result<List<u8>, NoMemory>
    requires { length places.now < 2 ^ 31 }
    ensures { IfOk result (λ bytes. bytes ≡ parameters_text places.now) }
{
    let mut fields = header(alloc)?;
    let mut writer = RecordWriter::new(alloc).write(&fields)?;
    for i in 0..places.len() {
        fill(alloc, &mut fields, i as u32 + 1, places[i])?;
        writer = writer.write(&fields)?;
    }
    writer.finish()
}

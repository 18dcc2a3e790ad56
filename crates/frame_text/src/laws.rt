// What is true of lines, fields, numbers and faults as they are defined. The functions only carry these theorems.
ghost use Rattle.frame_text.specs.Laws.{LinesJoin, FieldsJoin, NumbersReadBack};
ghost use Rattle.frame_text.specs.Order.{FirstFaultStands};

// The lines of a file, put together with their LFs, are the file; no line has an LF in it, and only the last may have
// none after it.
pub fn lines_join()
    ensures { LinesJoin }
{}

// The fields of a line, put together with commas, are the line, and no field has a comma in it.
pub fn fields_join()
    ensures { FieldsJoin }
{}

// A number field is what is printed of its value, so that an answer repeats it as it stands.
pub fn numbers_read_back()
    ensures { NumbersReadBack }
{}

// The fault that a line's reading finds is the first of the list of faults whose condition holds; with none, the
// line is a record.
pub fn first_fault_stands()
    ensures { FirstFaultStands }
{}

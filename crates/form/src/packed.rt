// A form at the widths that it has in a sheet.
ghost use Rattle.std.specs.Prelude.{◌≡◌};
ghost use Rattle.form.specs.Packed.{blank_form};

// A form has a factor for each index of depths 1 to 3, and one for each parameter.
pub const INDEX_FACTORS: usize = 3;

pub const PARAMETER_FACTORS: usize = 4;

#[derive(Clone, Copy, PartialEq, Eq)]
pub struct PackedForm {
    pub constant: i16,
    pub index: [i8; INDEX_FACTORS],
    pub parameter: [i8; PARAMETER_FACTORS],
}

impl PackedForm {
    pub fn blank() -> PackedForm
        ensures { result ≡ blank_form }
    {
        PackedForm {
            constant: 0,
            index: [0; INDEX_FACTORS],
            parameter: [0; PARAMETER_FACTORS],
        }
    }
}

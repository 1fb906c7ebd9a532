// What a case calls.
ghost use Rattle.cases.specs.Calls.{IsCallOf};

// The two ways of a converter.
#[derive(Clone, Copy, PartialEq, Eq)]
pub enum Conversion {
    WithSkips,
    WithoutSkips,
}

#[derive(Clone, Copy, PartialEq, Eq)]
pub enum Call {
    Reader,
    Writer,
    Plan,
    Figures,
    Stages,
    Text,
    ReasonLine,
    Converter(Conversion),
    Range,
}

impl Call {
    // The call that a case's first byte stands for.
    pub fn of(number: u8) -> Option<Call>
        ensures { IsCallOf number result }
    {
        match number {
            1 => Some(Call::Reader),
            2 => Some(Call::Writer),
            3 => Some(Call::Plan),
            4 => Some(Call::Figures),
            5 => Some(Call::Stages),
            6 => Some(Call::Text),
            7 => Some(Call::ReasonLine),
            8 => Some(Call::Converter(Conversion::WithSkips)),
            9 => Some(Call::Converter(Conversion::WithoutSkips)),
            10 => Some(Call::Range),
            _ => None,
        }
    }
}

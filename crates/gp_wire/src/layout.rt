//! Which fields each message of `profile.proto` has, and under which numbers: how it is written, and how it is read.
#![tactic(auto, using(crate::proofs::FieldLemmas::spelled_steps))]

ghost use Rattle.gp_wire.specs.Canonical.{value_type_fields, sample_fields, label_fields, location_fields};
ghost use Rattle.gp_wire.specs.Canonical.{line_fields, function_fields, profile_fields};
ghost use Rattle.gp_wire.specs.Messages.{value_type_from, sample_from, label_from, location_from, line_from};
ghost use Rattle.gp_wire.specs.Messages.{function_from, profile_from};
ghost use Rattle.gp_wire.specs.Checks.{no_cause, sample_check, location_check, profile_check};

use crate::encoding::{put_number, put_packed, put_signed};
use crate::error::Stop;
use crate::field::Field;
use crate::merge::FromFields;
use crate::message::{Message, put_messages, put_optional, put_texts};
use crate::profile::{Function, Label, Line, Location, Profile, Sample, ValueType};
use crate::taking::{
    pass_numbers, take_merged, take_messages, take_numbers, take_scalar, take_texts,
};
use gp_isa::{Memory, Sequence};
use std::alloc::Global;

/// The numbers of the fields that are written, and that of the comments, which are read over.
impl Profile {
    pub const SAMPLE_TYPE: u32 = 1;

    pub const SAMPLE: u32 = 2;

    pub const LOCATION: u32 = 4;

    pub const FUNCTION: u32 = 5;

    pub const STRING_TABLE: u32 = 6;

    pub const DURATION_NANOS: u32 = 10;

    pub const PERIOD_TYPE: u32 = 11;

    pub const PERIOD: u32 = 12;

    pub const COMMENT: u32 = 13;
}

impl Message for Profile {
    ghost fields = { profile_fields };

    fn put(&self, alloc: Global, out: &mut Vec<u8>) -> Result<(), Memory> {
        put_messages(
            alloc,
            out,
            Profile::SAMPLE_TYPE,
            self.sample_types.as_slice(),
        )?;
        put_messages(alloc, out, Profile::SAMPLE, self.samples.as_slice())?;
        put_messages(alloc, out, Profile::LOCATION, self.locations.as_slice())?;
        put_messages(alloc, out, Profile::FUNCTION, self.functions.as_slice())?;
        put_texts(out, Profile::STRING_TABLE, self.strings.as_slice())?;
        put_signed(out, Profile::DURATION_NANOS, self.duration)?;
        put_optional(alloc, out, Profile::PERIOD_TYPE, &self.period_type)?;
        put_signed(out, Profile::PERIOD, self.period)
    }
}

impl FromFields for Profile {
    ghost made = { profile_from };

    ghost check = { profile_check };

    #[tactic(auto, unfolding(crate::specs::Messages::profile_from, crate::specs::Messages::values_under))]
    fn without_fields(alloc: Global) -> Profile {
        Profile {
            sample_types: Sequence::new(alloc),
            samples: Sequence::new(alloc),
            locations: Sequence::new(alloc),
            functions: Sequence::new(alloc),
            strings: Sequence::new(alloc),
            period_type: None,
            period: 0,
            duration: 0,
        }
    }

    fn take(&mut self, alloc: Global, field: &Field<'_>) -> Result<(), Stop> {
        take_messages(alloc, &mut self.sample_types, Profile::SAMPLE_TYPE, field)?;
        take_messages(alloc, &mut self.samples, Profile::SAMPLE, field)?;
        take_messages(alloc, &mut self.locations, Profile::LOCATION, field)?;
        take_messages(alloc, &mut self.functions, Profile::FUNCTION, field)?;
        take_texts(alloc, &mut self.strings, Profile::STRING_TABLE, field)?;
        take_scalar(&mut self.duration, Profile::DURATION_NANOS, field);
        take_merged(alloc, &mut self.period_type, Profile::PERIOD_TYPE, field)?;
        take_scalar(&mut self.period, Profile::PERIOD, field);
        pass_numbers(Profile::COMMENT, field)
    }
}

/// The numbers of the fields that are written.
impl ValueType {
    pub const TYPE: u32 = 1;

    pub const UNIT: u32 = 2;
}

impl Message for ValueType {
    ghost fields = { value_type_fields };

    fn put(&self, _alloc: Global, out: &mut Vec<u8>) -> Result<(), Memory> {
        put_signed(out, ValueType::TYPE, self.kind)?;
        put_signed(out, ValueType::UNIT, self.unit)
    }
}

impl FromFields for ValueType {
    ghost made = { value_type_from };

    ghost check = { no_cause };

    #[tactic(auto, unfolding(crate::specs::Messages::value_type_from, crate::specs::Messages::values_under))]
    fn without_fields(_alloc: Global) -> ValueType {
        ValueType { kind: 0, unit: 0 }
    }

    fn take(&mut self, _alloc: Global, field: &Field<'_>) -> Result<(), Stop> {
        take_scalar(&mut self.kind, ValueType::TYPE, field);
        take_scalar(&mut self.unit, ValueType::UNIT, field);
        Ok(())
    }
}

/// The numbers of the fields that are written.
impl Sample {
    pub const LOCATION_ID: u32 = 1;

    pub const VALUE: u32 = 2;

    pub const LABEL: u32 = 3;
}

impl Message for Sample {
    ghost fields = { sample_fields };

    fn put(&self, alloc: Global, out: &mut Vec<u8>) -> Result<(), Memory> {
        put_packed(out, Sample::LOCATION_ID, self.location_ids.as_slice())?;
        put_packed(out, Sample::VALUE, self.values.as_slice())?;
        put_messages(alloc, out, Sample::LABEL, self.labels.as_slice())
    }
}

impl FromFields for Sample {
    ghost made = { sample_from };

    ghost check = { sample_check };

    #[tactic(auto, unfolding(crate::specs::Messages::sample_from, crate::specs::Messages::values_under))]
    fn without_fields(alloc: Global) -> Sample {
        Sample {
            location_ids: Sequence::new(alloc),
            values: Sequence::new(alloc),
            labels: Sequence::new(alloc),
        }
    }

    fn take(&mut self, alloc: Global, field: &Field<'_>) -> Result<(), Stop> {
        take_numbers(alloc, &mut self.location_ids, Sample::LOCATION_ID, field)?;
        take_numbers(alloc, &mut self.values, Sample::VALUE, field)?;
        take_messages(alloc, &mut self.labels, Sample::LABEL, field)
    }
}

/// The numbers of the fields that are written.
impl Label {
    pub const KEY: u32 = 1;

    pub const STR: u32 = 2;

    pub const NUM: u32 = 3;

    pub const NUM_UNIT: u32 = 4;
}

impl Message for Label {
    ghost fields = { label_fields };

    fn put(&self, _alloc: Global, out: &mut Vec<u8>) -> Result<(), Memory> {
        put_signed(out, Label::KEY, self.key)?;
        put_signed(out, Label::STR, self.text)?;
        put_signed(out, Label::NUM, self.num)?;
        put_signed(out, Label::NUM_UNIT, self.num_unit)
    }
}

impl FromFields for Label {
    ghost made = { label_from };

    ghost check = { no_cause };

    #[tactic(auto, unfolding(crate::specs::Messages::label_from, crate::specs::Messages::values_under))]
    fn without_fields(_alloc: Global) -> Label {
        Label {
            key: 0,
            text: 0,
            num: 0,
            num_unit: 0,
        }
    }

    fn take(&mut self, _alloc: Global, field: &Field<'_>) -> Result<(), Stop> {
        take_scalar(&mut self.key, Label::KEY, field);
        take_scalar(&mut self.text, Label::STR, field);
        take_scalar(&mut self.num, Label::NUM, field);
        take_scalar(&mut self.num_unit, Label::NUM_UNIT, field);
        Ok(())
    }
}

/// The numbers of the fields that are written.
impl Location {
    pub const ID: u32 = 1;

    pub const LINE: u32 = 4;
}

impl Message for Location {
    ghost fields = { location_fields };

    fn put(&self, alloc: Global, out: &mut Vec<u8>) -> Result<(), Memory> {
        put_number(out, Location::ID, self.id)?;
        put_messages(alloc, out, Location::LINE, self.lines.as_slice())
    }
}

impl FromFields for Location {
    ghost made = { location_from };

    ghost check = { location_check };

    #[tactic(auto, unfolding(crate::specs::Messages::location_from, crate::specs::Messages::values_under))]
    fn without_fields(alloc: Global) -> Location {
        Location {
            id: 0,
            lines: Sequence::new(alloc),
        }
    }

    fn take(&mut self, alloc: Global, field: &Field<'_>) -> Result<(), Stop> {
        take_scalar(&mut self.id, Location::ID, field);
        take_messages(alloc, &mut self.lines, Location::LINE, field)
    }
}

/// The numbers of the fields that are written.
impl Line {
    pub const FUNCTION_ID: u32 = 1;

    pub const LINE: u32 = 2;
}

impl Message for Line {
    ghost fields = { line_fields };

    fn put(&self, _alloc: Global, out: &mut Vec<u8>) -> Result<(), Memory> {
        put_number(out, Line::FUNCTION_ID, self.function_id)?;
        put_signed(out, Line::LINE, self.line)
    }
}

impl FromFields for Line {
    ghost made = { line_from };

    ghost check = { no_cause };

    #[tactic(auto, unfolding(crate::specs::Messages::line_from, crate::specs::Messages::values_under))]
    fn without_fields(_alloc: Global) -> Line {
        Line {
            function_id: 0,
            line: 0,
        }
    }

    fn take(&mut self, _alloc: Global, field: &Field<'_>) -> Result<(), Stop> {
        take_scalar(&mut self.function_id, Line::FUNCTION_ID, field);
        take_scalar(&mut self.line, Line::LINE, field);
        Ok(())
    }
}

/// The numbers of the fields that are written.
impl Function {
    pub const ID: u32 = 1;

    pub const NAME: u32 = 2;

    pub const SYSTEM_NAME: u32 = 3;

    pub const FILENAME: u32 = 4;

    pub const START_LINE: u32 = 5;
}

impl Message for Function {
    ghost fields = { function_fields };

    fn put(&self, _alloc: Global, out: &mut Vec<u8>) -> Result<(), Memory> {
        put_number(out, Function::ID, self.id)?;
        put_signed(out, Function::NAME, self.name)?;
        put_signed(out, Function::SYSTEM_NAME, self.system_name)?;
        put_signed(out, Function::FILENAME, self.filename)?;
        put_signed(out, Function::START_LINE, self.start_line)
    }
}

impl FromFields for Function {
    ghost made = { function_from };

    ghost check = { no_cause };

    #[tactic(auto, unfolding(crate::specs::Messages::function_from, crate::specs::Messages::values_under))]
    fn without_fields(_alloc: Global) -> Function {
        Function {
            id: 0,
            name: 0,
            system_name: 0,
            filename: 0,
            start_line: 0,
        }
    }

    fn take(&mut self, _alloc: Global, field: &Field<'_>) -> Result<(), Stop> {
        take_scalar(&mut self.id, Function::ID, field);
        take_scalar(&mut self.name, Function::NAME, field);
        take_scalar(&mut self.system_name, Function::SYSTEM_NAME, field);
        take_scalar(&mut self.filename, Function::FILENAME, field);
        take_scalar(&mut self.start_line, Function::START_LINE, field);
        Ok(())
    }
}

ghost use Rattle.std.specs.Prelude.{◌≡◌, List, [], ◌∷◌, ◌++◌, OnOk};
ghost use Rattle.gp_wire.specs.declared.field.Field.{Field};
ghost use Rattle.gp_wire.specs.Field.{spelled};
ghost use Rattle.gp_wire.specs.Canonical.{part as one_part, texts as text_fields, messages as message_fields, optional};

use crate::encoding::put_part;
use gp_isa::{Memory, Text};
use std::alloc::Global;

/// A message of `profile.proto`.
pub trait Message {
    /// The fields that it has, in the order of their numbers.
    ghost fields: { Self → List Field };

    /// Appends the fields.
    fn put(&self, alloc: Global, out: &mut Vec<u8>) -> Result<(), Memory>
        ensures { OnOk result (out.new.items ≡ out.old.items ++ spelled (fields self.now)) };
}

/// Appends a message as a part. Its content is made in `content` first, since its length stands before it.
fn put_message<M: Message>(
    alloc: Global,
    out: &mut Vec<u8>,
    content: &mut Vec<u8>,
    number: u32,
    message: &M,
) -> Result<(), Memory>
    ensures { OnOk result (out.new.items ≡ out.old.items ++ spelled (one_part number (spelled (M.fields message.now)) ∷ [])) }
{
    content.clear();
    message.put(alloc, content)?;
    put_part(out, number, content)
}

/// Appends a repeated message.
pub fn put_messages<M: Message>(
    alloc: Global,
    out: &mut Vec<u8>,
    number: u32,
    messages: &[M],
) -> Result<(), Memory>
    ensures { OnOk result (out.new.items ≡ out.old.items ++ spelled (message_fields number M.fields messages.now)) }
{
    let mut content = Vec::new(alloc);
    for message in messages {
        put_message(alloc, out, &mut content, number, message)?;
    }
    Ok(())
}

/// Appends a message where there is one, also one whose content is empty.
#[tactic(auto, using(crate::proofs::FieldLemmas::spelled_steps), unfolding(crate::specs::Canonical::optional))]
pub fn put_optional<M: Message>(
    alloc: Global,
    out: &mut Vec<u8>,
    number: u32,
    message: &Option<M>,
) -> Result<(), Memory>
    ensures { OnOk result (out.new.items ≡ out.old.items ++ spelled (optional number M.fields message.now)) }
{
    match message {
        None => Ok(()),
        Some(message) => {
            let mut content = Vec::new(alloc);
            put_message(alloc, out, &mut content, number, message)
        }
    }
}

/// Appends a repeated text, also one that is empty.
pub fn put_texts(out: &mut Vec<u8>, number: u32, texts: &[Text]) -> Result<(), Memory>
    ensures { OnOk result (out.new.items ≡ out.old.items ++ spelled (text_fields number texts.now)) }
{
    for text in texts {
        put_part(out, number, text.as_bytes())?;
    }
    Ok(())
}

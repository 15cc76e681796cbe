//! The texts of joint data, each made once.

ghost use Rattle.std.specs.Prelude.{◌≡◌, ◌<◌, [], Some, slice_get, IfOk, OnOk};
ghost use Rattle.nego_base.specs.Appending.{Appends};
ghost use Rattle.nego_data.specs.Data.{data_count, split};
ghost use Rattle.nego_cli.specs.JointTexts.{AreJointTexts};
ghost use Rattle.nego_cli.specs.Refusals.{value_words};

use crate::joint_text::add_joint;
use nego_base::{Memory, Seq, Text};
use nego_data::Sizes;
use std::alloc::Global;

/// For each joint data the text of the agents' values, each behind a blank, which is made when it is first wanted and
/// is empty before.
#[derive(Debug, Drop)]
pub(crate) struct JointTexts<'a> {
    pub(crate) sizes: &'a Sizes,
    pub(crate) texts: Seq<Text>,
}

impl<'a> JointTexts<'a> {
    /// No text yet.
    pub(crate) fn new(alloc: Global, sizes: &'a Sizes) -> Result<JointTexts<'a>, Memory>
        ensures sizes { IfOk result (λ joints. joints.sizes.now ≡ sizes.now) }
        ensures texts { IfOk result (λ joints. AreJointTexts sizes.now joints.texts) }
    {
        let mut texts = Seq::new(alloc);
        for _d in 0..sizes.all() {
            texts.push(Text::new(alloc))?;
        }
        Ok(JointTexts { sizes, texts })
    }

    /// Adds the values of the agents in joint data, each behind a blank.
    pub(crate) fn add(&mut self, alloc: Global, text: &mut Text, d: u16) -> Result<(), Memory>
        requires texts { AreJointTexts self.old.sizes.now self.old.texts }
        requires there { d < data_count self.old.sizes.now }
        ensures sizes { self.new.sizes ≡ self.old.sizes }
        ensures texts { OnOk result (AreJointTexts self.old.sizes.now self.new.texts) }
        ensures added { OnOk result (Appends text.old text.new (value_words (split self.old.sizes.now d))) }
    {
        self.make(alloc, d)?;
        text.extend_from_slice(self.texts[d as usize].as_slice())
    }

    /// Makes the text of joint data, where it isn't made yet.
    fn make(&mut self, alloc: Global, d: u16) -> Result<(), Memory>
        requires texts { AreJointTexts self.old.sizes.now self.old.texts }
        requires there { d < data_count self.old.sizes.now }
        ensures sizes { self.new.sizes ≡ self.old.sizes }
        ensures texts { OnOk result (AreJointTexts self.old.sizes.now self.new.texts) }
        ensures made { OnOk result (slice_get self.new.texts d ≡ Some (value_words (split self.old.sizes.now d) [])) }
    {
        if self.texts[d as usize].is_empty() {
            let made = joint_text(alloc, self.sizes, d)?;
            self.texts.set(d as usize, made);
        }
        Ok(())
    }
}

/// The text of joint data.
fn joint_text(alloc: Global, sizes: &Sizes, d: u16) -> Result<Text, Memory>
    requires { d < data_count sizes.now }
    ensures { IfOk result (λ text. text ≡ value_words (split sizes.now d) []) }
{
    let mut text = Text::new(alloc);
    add_joint(&mut text, sizes, d)?;
    Ok(text)
}

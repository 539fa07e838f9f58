ghost use Rattle.std.specs.Prelude.{◌≡◌};
ghost use Rattle.call_script.specs.Keys.{key_name, is_script_key, rule_key_name, is_rule_key};

/// A key of a script.
#[derive(Clone, Copy, Debug, PartialEq, Eq)]
pub enum ScriptKey {
    Quota,
    Drain,
    Gap,
    Blobs,
    Steps,
    Rules,
}

impl ScriptKey {
    const ALL: [ScriptKey; 6] = [
        ScriptKey::Quota,
        ScriptKey::Drain,
        ScriptKey::Gap,
        ScriptKey::Blobs,
        ScriptKey::Steps,
        ScriptKey::Rules,
    ];

    /// The key as it is written.
    pub fn name(self) -> &'static str
        ensures { result.now ≡ key_name self }
    {
        match self {
            ScriptKey::Quota => "quota",
            ScriptKey::Drain => "drain",
            ScriptKey::Gap => "gap",
            ScriptKey::Blobs => "blobs",
            ScriptKey::Steps => "steps",
            ScriptKey::Rules => "rules",
        }
    }
}

/// Whether the text is a key of a script.
pub fn is_script_key(text: &str) -> bool
    ensures { result ≡ is_script_key text.now }
{
    ScriptKey::ALL.iter().any(|key| text == key.name())
}

/// A key of a rule.
#[derive(Clone, Copy, Debug, PartialEq, Eq)]
pub enum RuleKey {
    Listener,
    On,
    Times,
    Repeat,
    Calls,
}

impl RuleKey {
    const ALL: [RuleKey; 5] = [
        RuleKey::Listener,
        RuleKey::On,
        RuleKey::Times,
        RuleKey::Repeat,
        RuleKey::Calls,
    ];

    /// The key as it is written.
    pub fn name(self) -> &'static str
        ensures { result.now ≡ rule_key_name self }
    {
        match self {
            RuleKey::Listener => "listener",
            RuleKey::On => "on",
            RuleKey::Times => "times",
            RuleKey::Repeat => "repeat",
            RuleKey::Calls => "calls",
        }
    }
}

/// Whether the text is a key of a rule.
pub fn is_rule_key(text: &str) -> bool
    ensures { result ≡ is_rule_key text.now }
{
    RuleKey::ALL.iter().any(|key| text == key.name())
}

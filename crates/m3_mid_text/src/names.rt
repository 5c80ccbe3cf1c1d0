use m3_mid::{CheckedOperator, Kind, Relation, Service, WordOperator};

/// The sign of a relation; those of words without a sign end in `u`.
pub fn relation_sign(relation: Relation) -> &'static str {
    match relation {
        Relation::Equal => "=",
        Relation::NotEqual => "#",
        Relation::Less => "<",
        Relation::LessEqual => "<=",
        Relation::LessUnsigned => "<u",
        Relation::LessEqualUnsigned => "<=u",
    }
}

/// The name of an operator on words.
pub fn word_operator_name(operator: WordOperator) -> &'static str {
    match operator {
        WordOperator::Add => "add",
        WordOperator::Subtract => "subtract",
        WordOperator::Multiply => "multiply",
        WordOperator::And => "and",
        WordOperator::Or => "or",
        WordOperator::Xor => "xor",
        WordOperator::Shift => "shift",
        WordOperator::Rotate => "rotate",
    }
}

/// The name of an operator that may fault.
pub fn operator_name(operator: CheckedOperator) -> &'static str {
    match operator {
        CheckedOperator::Add => "add",
        CheckedOperator::Subtract => "subtract",
        CheckedOperator::Multiply => "multiply",
        CheckedOperator::Div => "div",
        CheckedOperator::Mod => "mod",
        CheckedOperator::DivUnsigned => "div unsigned",
        CheckedOperator::ModUnsigned => "mod unsigned",
    }
}

/// The name of a kind of words.
pub(crate) fn kind_name(kind: Kind) -> &'static str {
    match kind {
        Kind::Number => "number",
        Kind::Tidy => "tidy",
        Kind::Address => "address",
    }
}

/// The name of a service of the machine.
pub fn service_name(service: Service) -> &'static str {
    match service {
        Service::Put => "Put",
        Service::PutNumber => "PutNumber",
        Service::PutByte => "PutByte",
        Service::GetByte => "GetByte",
        Service::EndOfInput => "EndOfInput",
        Service::Concatenate => "Concatenate",
        Service::ByteText => "ByteText",
        Service::Subtext => "Subtext",
        Service::Fork => "Fork",
        Service::Join => "Join",
        Service::Acquire => "Acquire",
        Service::Release => "Release",
        Service::Wait => "Wait",
        Service::Signal => "Signal",
        Service::Broadcast => "Broadcast",
        Service::MySelf => "MySelf",
        Service::Alert => "Alert",
        Service::TestAlert => "TestAlert",
        Service::AlertWait => "AlertWait",
        Service::AlertJoin => "AlertJoin",
    }
}

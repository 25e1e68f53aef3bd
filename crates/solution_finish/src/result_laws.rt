// Laws alone: each part of the result list, as the steps of the finish leave it, is the definition's (document 01, Record 7).
